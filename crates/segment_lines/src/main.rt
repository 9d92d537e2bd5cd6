// Reads a message a line in hexadecimal from standard input, and writes the frames of its cut, one a line, to standard output.
#![tactic(auto)]

ghost use Rattle.std.specs.Prelude.{◌≤◌, ◌≡◌, length};
ghost use Rattle.segment_lines.specs.Turns.{PieceHeld, LineEnded, Turn};
ghost use Rattle.segment_lines.specs.Runs.{Ran};

use hex_lines::LineText;
use lines::Streams;
use octets::LONGEST_MESSAGE;
use std::io::Read;
use transactions::TransactionNumber;

// One character more than the longest message has digits.
const LINE_ROOM: usize = 2 * LONGEST_MESSAGE + 1;

type Line = [u8; LINE_ROOM];

// What is written out together: it has room for any text.
type Output = [u8; 65536];

// How far the program has come.
#[derive(Clone, Copy)]
struct Progress {
    streams: Streams,
    // Characters of the line so far.
    held: usize,
    // The number of the next message.
    number: TransactionNumber,
}

// Reads on as far as a line's end, or the end of what is there. A line that fills its buffer is longer than any message, and refused whatever
// follows. Its own here and in `replay`: what stands beside the streams differs, and `PieceHeld` speaks of this program's.
fn read_on<P: Print + Eprint, R: Read>(
    rt: &P,
    reader: &mut R,
    progress: Progress,
    input: &mut [u8],
    line: &mut Line,
    output: &[u8],
) -> Progress
    requires { progress.held ≤ length line.old }
    ensures { PieceHeld progress input.old line.old output.now result input.new line.new }
{
    let streams = lines::next_piece(rt, reader, progress.streams, input, output);
    let piece = &input[streams.from..streams.to];
    Progress {
        streams,
        held: line_buffer::hold(line, progress.held, piece),
        ..progress
    }
}

// Ends the line: its text waits in the output, which has room for any.
fn end_line<P: Print + Eprint>(
    rt: &P,
    progress: Progress,
    line: &[u8],
    output: &mut Output,
) -> Progress
    requires { progress.held ≤ length line.now }
    ensures { LineEnded progress line.now output.old result output.new }
{
    let number = progress.number;
    let streams = lines::make_room(rt, progress.streams, output, hex_lines::MOST);
    let answer = hex_lines::write_line(
        number,
        &line[..progress.held],
        &mut output[streams.waiting..],
    );
    let Ok(LineText { length, next }) = answer else {
        // Never: the room is enough for any line.
        return Progress {
            streams,
            held: 0,
            number,
        };
    };
    Progress {
        streams: lines::add_waiting(streams, output, length),
        held: 0,
        number: next,
    }
}

// The handle, the reader and the buffers stay parameters: a record of them would lend the buffers, and `Turn` would speak of them through it.
fn take_turn<P: Print + Eprint, R: Read>(
    rt: &P,
    reader: &mut R,
    progress: Progress,
    input: &mut [u8],
    line: &mut Line,
    output: &mut Output,
) -> Progress
    requires { progress.held ≤ length line.old }
    ensures { Turn progress input.old line.old output.old result input.new line.new output.new }
{
    let read = read_on(rt, reader, progress, input, line, output);
    if lines::is_whole(read.streams, read.held) {
        return end_line(rt, read, line, output);
    }
    read
}

// Takes turns for as long as input is found, and writes out what still waits. What it then has is handed back so that the contract can speak of it.
fn run<P: Print + Eprint, R: Read>(
    rt: &P,
    reader: &mut R,
    input: &mut [u8],
    line: &mut Line,
    output: &mut Output,
) -> Progress
    ensures { Ran input.old line.old output.old result input.new line.new output.new }
{
    let mut progress = Progress {
        streams: lines::start(),
        held: 0,
        number: TransactionNumber(0),
    };
    // Nothing says that the input ends, so the turns are counted, up to a number that no run reaches.
    for _ in 0..u64::MAX {
        progress = take_turn(rt, reader, progress, input, line, output);
        if !progress.streams.found {
            break;
        }
    }
    Progress {
        streams: lines::flush(rt, progress.streams, output),
        ..progress
    }
}

fn main(rt: HostRuntime) {
    let mut input = io::large_buffer();
    let mut output = io::large_buffer();
    let mut line: Line = [0; LINE_ROOM];
    run(&rt, &mut rt.stdin(), &mut input, &mut line, &mut output);
}
