// Replays a script: one operation a line in, one answer a line out (docs/REPLAY.md). It keeps the state and the storages between lines; an
// operation is one call of the library, and the answer what came back.
#![tactic(auto)]

mod answers;
mod beacons;
mod filters;
mod messages;
mod operations;
mod records;
mod sessions;
mod shapes;
mod station_calls;
mod storages;
mod transfers;
mod writers;

ghost use Rattle.std.specs.Prelude.{◌≤◌, length};

use answers::Answer;
use lines::Streams;
use operations::Held;
use std::io::Read;

// How far the program has come in its input and output, and how many characters of a line it holds.
#[derive(Clone, Copy)]
struct Reading {
    streams: Streams,
    characters: usize,
}

// Reads on as far as a line's end, or the end of what is there. A line that fills its buffer is longer than any operation.
fn read_on<P: Print + Eprint, R: Read>(
    rt: &P,
    reader: &mut R,
    reading: Reading,
    input: &mut [u8],
    line: &mut [u8],
    output: &[u8],
) -> Reading
    ensures { result.characters ≤ length line.new }
{
    let streams = lines::next_piece(rt, reader, reading.streams, input, output);
    let piece = &input[streams.from..streams.to];
    Reading {
        streams,
        characters: line_buffer::hold(line, reading.characters, piece),
    }
}

// Writes an answer behind the text that waits; the next line has no characters yet.
fn write_answer<P: Print + Eprint>(
    rt: &P,
    before: Streams,
    answer: Answer,
    output: &mut [u8],
) -> Reading {
    let streams = lines::make_room(rt, before, output, answers::LONGEST);
    // There is room, so that it is never refused.
    let Ok(n) = answer.write(&mut output[streams.waiting..]) else {
        return Reading {
            streams,
            characters: 0,
        };
    };
    Reading {
        streams: lines::add_waiting(streams, output, n),
        characters: 0,
    }
}

// Reads on, and answers the line if it is whole.
fn take_turn<P: Print + Eprint, R: Read>(
    rt: &P,
    reader: &mut R,
    reading: Reading,
    held: &mut Held,
    input: &mut [u8],
    line: &mut [u8],
    area: &mut [u8],
    output: &mut [u8],
) -> Reading {
    let read = read_on(rt, reader, reading, input, line, output);
    if lines::is_whole(read.streams, read.characters) {
        let answer = held.perform_line(&line[..read.characters], area);
        return write_answer(rt, read.streams, answer, output);
    }
    read
}

fn run<P: Print + Eprint, R: Read>(
    rt: &P,
    reader: &mut R,
    input: &mut [u8],
    line: &mut [u8],
    area: &mut [u8],
    output: &mut [u8],
) {
    let mut held = Held::new();
    let mut reading = Reading {
        streams: lines::start(),
        characters: 0,
    };
    // Nothing says that the input ends, so the turns are counted, up to a number that no run reaches.
    for _ in 0..u64::MAX {
        reading = take_turn(rt, reader, reading, &mut held, input, line, area, output);
        if !reading.streams.found {
            break;
        }
    }
    lines::flush(rt, reading.streams, output);
}

fn main(rt: HostRuntime) {
    let mut input = io::large_buffer();
    let mut output = io::large_buffer();
    // A line with one character more than the longest.
    let mut line = [0u8; script::LONGEST + 1];
    // Storage A, the station's area, zero at start.
    let mut area = [0u8; storages::AREA];
    run(
        &rt,
        &mut rt.stdin(),
        &mut input,
        &mut line,
        &mut area,
        &mut output,
    );
}
