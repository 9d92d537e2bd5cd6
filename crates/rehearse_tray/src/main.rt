// Rehearses a tray without modules: it reads which modules there are and how much the channel loses and repeats, runs the station and the devices
// against each other, and writes the station's log (docs/REHEARSAL.md).
#![tactic(auto)]

mod given;
mod log;
mod tray;
mod turns;

ghost use Rattle.std.specs.Prelude.{◌≤◌, length};

use given::{Given, Module};
use links::{LinkState, Side};
use log::Log;
use lossy_channel::Channel;
use octets::LONGEST_MESSAGE;
use rehearsal_lines::Line;
use station::AREA_LENGTH;
use std::io::Read;
use transactions::Socket;
use tray::Tray;

// Turns of a rehearsal: 4,000 of either end at each socket, if they go round.
const TURNS: u32 = 64000;

// Rounds in which the station gives up what is left: a Close is due at most three times.
const ROUNDS: u8 = 3;

// The longest line but for a comment, a carriage return, and one character more.
const HELD: usize = rehearsal_lines::LONGEST + 2;

// How far the program has come in its input.
#[derive(Drop)]
struct Reading {
    given: Given,
    // The modules' messages, each at its socket's place.
    messages: [u8; AREA_LENGTH],
    log: Log,
    // Lines so far.
    lines: u64,
    // The next line, and how many characters of it are held.
    line: [u8; HELD],
    held: usize,
}

// Whether a line is longer than any but a comment.
fn is_long(line: &[u8]) -> bool {
    rehearsal_lines::LONGEST < line.len() && octets::octet_at(line, 0) != b'#'
}

// What a line says; its message goes into the room.
fn read_line(line: &[u8], message: &mut [u8]) -> Line {
    if is_long(line) {
        return Line::Other;
    }
    rehearsal_lines::read_line(line, message)
}

// How many of the characters that are held are the line's: a carriage return before the newline is not.
fn line_length(ends: bool, line: &[u8], held: usize) -> usize
    ensures { result ≤ held }
{
    if held == 0 {
        return 0;
    }
    if ends && octets::octet_at(line, held - 1) == b'\r' {
        return held - 1;
    }
    held
}

impl Reading {
    // Before the first line.
    fn new() -> Reading {
        Reading {
            given: Given::nothing(),
            messages: [0; AREA_LENGTH],
            log: Log::new(),
            lines: 0,
            line: [0; HELD],
            held: 0,
        }
    }

    fn refuse<P: Print + Eprint>(&mut self, rt: &P) {
        let number = self.lines;
        self.log
            .put(rt, |room| rehearsal_lines::write_refused(number, room));
    }

    // A line that gives the channel.
    fn take_channel<P: Print + Eprint>(&mut self, rt: &P, channel: Channel) {
        if self.given.channel.is_some() {
            return self.refuse(rt);
        }
        self.given.channel = Some(channel);
    }

    // A line that gives a module, whose message goes to its socket's place.
    fn take_module<P: Print + Eprint>(
        &mut self,
        rt: &P,
        socket: Socket,
        module: Module,
        message: &[u8],
    ) {
        if !self.given.is_new(socket, module.id) {
            return self.refuse(rt);
        }
        let from = LONGEST_MESSAGE * socket.place();
        octet_parts::copy(&mut self.messages, from, message, 0, module.length);
        self.given.put_module(socket, module);
    }

    // What a line says, and the message that it may have.
    fn take_said<P: Print + Eprint>(&mut self, rt: &P, said: Line, message: &[u8]) {
        match said {
            Line::Passed => {}
            Line::Other => self.refuse(rt),
            Line::Channel {
                seed,
                lost,
                repeated,
            } => self.take_channel(rt, lossy_channel::new(seed, lost, repeated)),
            Line::Module { socket, id, length } => {
                self.take_module(rt, socket, Module { id, length }, message)
            }
        }
    }

    // Takes the line that is held.
    fn take_held<P: Print + Eprint>(&mut self, rt: &P)
        requires { self.old.held ≤ length self.old.line }
    {
        let count = line_length(self.log.streams.ends, &self.line, self.held);
        self.lines = self.lines.saturating_add(1);
        self.held = 0;
        let mut message = [0u8; LONGEST_MESSAGE];
        let said = read_line(&self.line[..count], &mut message);
        self.take_said(rt, said, &message);
    }

    // Reads on as far as a line's end, or the end of what is there, and takes the line if it is whole.
    fn read_next<P: Print + Eprint, R: Read>(&mut self, rt: &P, reader: &mut R, input: &mut [u8]) {
        let streams = lines::next_piece(rt, reader, self.log.streams, input, &self.log.output);
        let piece = &input[streams.from..streams.to];
        let held = line_buffer::hold(&mut self.line, self.held, piece);
        self.log.streams = streams;
        self.held = held;
        if lines::is_whole(streams, held) {
            self.take_held(rt);
        }
    }

    // Reads all lines.
    fn read_lines<P: Print + Eprint, R: Read>(&mut self, rt: &P, reader: &mut R) {
        let mut input = io::large_buffer();
        // Nothing says that the input ends, so the pieces are counted, up to a number that no run comes to.
        for _ in 0..u64::MAX {
            self.read_next(rt, reader, &mut input);
            if !self.log.streams.found {
                break;
            }
        }
    }
}

// Whose turn it is: the station and the device of socket 1, those of socket 2, and so on; or, in a mixture, as the channel has drawn.
fn next_turn(mixed: bool, drawn: u32, turn: u32) -> (Side, Socket)
    ensures { (1 ≤ result.1.0) × (result.1.0 ≤ 8) }
{
    let number = if mixed { drawn } else { turn };
    let side = if number % 2 == 0 {
        Side::Provisioner
    } else {
        Side::Device
    };
    (side, Socket((number / 2 % 8) as u8 + 1))
}

impl Tray {
    fn open_all<P: Print + Eprint>(&mut self, rt: &P) {
        for socket in 1..=8 {
            self.open_socket(rt, Socket(socket));
        }
    }

    // Whether the station has nothing more to do at a socket.
    fn is_closed(&self, socket: Socket) -> bool {
        let link = link_records::link_at(self.links, socket.place());
        let served = self.served_at(socket);
        link.state == LinkState::Free && served.is_none_or(|served| served.station.closes == 0)
    }

    // Whether that is so at all sockets, or standard output takes no more.
    fn is_over(&self) -> bool {
        (1..=8).all(|socket| self.is_closed(Socket(socket))) || !self.log.streams.taken
    }

    // One turn.
    fn serve<P: Print + Eprint>(&mut self, rt: &P, mixed: bool, turn: u32) {
        let channel = lossy_channel::draw(self.channel);
        self.channel = channel;
        match next_turn(mixed, channel.number, turn) {
            (Side::Provisioner, socket) => self.station_turn(rt, socket),
            (Side::Device, socket) => self.device_turn(rt, socket),
        }
    }

    // Turns until all is closed, or there were enough.
    fn take_turns<P: Print + Eprint>(&mut self, rt: &P, mixed: bool) {
        for turn in 0..TURNS {
            if self.is_over() {
                break;
            }
            self.serve(rt, mixed, turn);
        }
    }

    // The station closes what is still open, and sends each Close that is due, in three rounds over the modules.
    fn give_up_rest<P: Print + Eprint>(&mut self, rt: &P) {
        for _ in 0..ROUNDS {
            for socket in 1..=8 {
                self.give_up(rt, Socket(socket));
            }
        }
    }
}

// From the openings to the last Close. Where a line gave a channel, the turns of the ends are mixed.
fn rehearse<P: Print + Eprint>(rt: &P, tray: &mut Tray, mixed: bool) {
    tray.open_all(rt);
    tray.take_turns(rt, mixed);
    tray.give_up_rest(rt);
}

fn run<P: Print + Eprint, R: Read>(rt: &P, reader: &mut R) {
    let mut reading = Reading::new();
    reading.read_lines(rt, reader);
    let mixed = reading.given.channel.is_some();
    let mut tray = Tray::new(reading.given, reading.messages, reading.log);
    // Where the input could not be read to its end, nothing is rehearsed.
    if tray.log.streams.over {
        rehearse(rt, &mut tray, mixed);
    }
    lines::flush(rt, tray.log.streams, &tray.log.output);
}

fn main(rt: HostRuntime) {
    run(&rt, &mut rt.stdin());
}
