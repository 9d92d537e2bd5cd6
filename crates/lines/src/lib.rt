// Lines of text from an input, and text to standard output, through buffers that the program lends. A line comes in pieces, since no
// buffer holds every line; the text that waits is written out before more input is awaited. Where the system fails to read or to write, a line
// on standard error says so.
#![tactic(auto)]

ghost use Rattle.std.specs.Prelude.{◌≡◌, ◌==◌, ◌+◌, ◌≤◌, length, position};
ghost use Rattle.lines.specs.Streams.{nothing_read, answer_of, newline_from, piece_from, next_place, Within, with_waiting, Flushed, RoomMade, waiting_after, is_left, piece_read, Read, Found, is_whole};

mod failures;

pub use failures::say_failed;
use std::io::{Error, Read};

// How far a program has come in its input and its output.
// Its flags stay flags, and no enum of them: `LinesFound` and `LinesBegun` of specs/Lines.antt speak of `found`, of `over` and of `ends`, each alone.
// The buffers are lent beside it and not held in it: `Found` and `Flushed` of specs/Streams.antt speak of each apart, and it is copied freely.
#[derive(Clone, Copy)]
pub struct Streams {
    // The piece found last: from one place of the input buffer to another, the newline left out.
    pub from: usize,
    pub to: usize,
    // Whether the line ends with it.
    pub ends: bool,
    // How many octets of input the buffer has.
    pub filled: usize,
    // Whether a piece was found: not at the end of input, nor where a read failed, nor where standard output takes no more.
    pub found: bool,
    // Whether the input's end was met: the system read nothing more.
    pub over: bool,
    // Octets of text that wait at the start of the output buffer.
    pub waiting: usize,
    // Whether standard output has taken all so far.
    pub taken: bool,
}

// Nothing read and nothing waiting.
pub fn start() -> Streams
    ensures { result ≡ nothing_read }
{
    Streams {
        from: 0,
        to: 0,
        ends: false,
        filled: 0,
        found: true,
        over: false,
        waiting: 0,
        taken: true,
    }
}

// How many octets of a text come before its first newline.
fn before_newline(text: &[u8]) -> Option<usize>
    ensures { result ≡ position (λ c. c == 10) text.now }
{
    text.iter().position(|c| *c == b'\n')
}

// The place of the first newline from a place on; the end where there is none.
fn find_newline(input: &[u8], from: usize, filled: usize) -> usize
    requires { (from ≤ filled) × (filled ≤ length input.now) }
    ensures { (result ≡ newline_from input.now from filled) × (from ≤ result) × (result ≤ filled) }
{
    match before_newline(&input[from..filled]) {
        Some(count) => from + count,
        None => filled,
    }
}

// The piece from a place on.
fn piece_from(streams: Streams, input: &[u8], from: usize, filled: usize) -> Streams
    requires { (from ≤ filled) × (filled ≤ length input.now) }
    ensures { (result ≡ piece_from streams input.now from filled) × (from ≤ result.to) × (result.to ≤ filled) }
{
    let to = find_newline(input, from, filled);
    Streams {
        from,
        to,
        ends: to < filled,
        filled,
        found: from < filled,
        over: false,
        ..streams
    }
}

// Writes a text out, and answers whether standard output took it. What was not taken is lost, so that is said.
fn write_out<P: Print + Eprint>(rt: &P, text: &[u8]) -> bool {
    match rt.write_all(text) {
        Ok(()) => true,
        Err(error) => {
            say_failed(rt, "cannot write standard output", error);
            false
        }
    }
}

// Writes out the text that waits.
pub fn flush<P: Print + Eprint>(rt: &P, streams: Streams, output: &[u8]) -> Streams
    ensures { Flushed streams output.now result × (result.waiting ≡ 0) }
{
    let taken = match output.get(..streams.waiting) {
        Some(text) if streams.taken => write_out(rt, text),
        _ => streams.taken,
    };
    let waiting = 0;
    Streams {
        waiting,
        taken,
        ..streams
    }
}

// Where the piece after the last one begins.
fn next_place(streams: Streams) -> usize
    ensures { result ≡ next_place streams }
{
    if streams.ends && streams.to < streams.filled {
        streams.to + 1
    } else {
        streams.to
    }
}

// How many octets the system's answer to a read says it had, 0 at the input's end; none where it failed, which a line on standard error says.
fn answer_of<E: Eprint>(rt: &E, answer: Result<usize, Error>) -> Option<usize>
    ensures { result ≡ answer_of answer }
{
    match answer {
        Ok(count) => Some(count),
        Err(error) => {
            say_failed(rt, "cannot read the input", error);
            None
        }
    }
}

// The first piece of what was read, as the system answered.
fn piece_read(streams: Streams, got: Option<usize>, input: &[u8]) -> Streams
    ensures { (result ≡ piece_read streams got input.now) × (result.from ≤ result.to) × (result.to ≤ length input.now) }
{
    let filled = got.unwrap_or(0).min(input.len());
    let piece = piece_from(streams, input, 0, filled);
    Streams {
        over: got == Some(0),
        ..piece
    }
}

// Writes out what waits, and reads on.
fn read_more<P: Print + Eprint, R: Read>(
    rt: &P,
    reader: &mut R,
    streams: Streams,
    input: &mut [u8],
    output: &[u8],
) -> Streams
    ensures { Read streams output.now result input.new × Within result input.new output.now }
{
    let flushed = flush(rt, streams, output);
    if flushed.taken {
        let answer = reader.read(input);
        let got = answer_of(rt, answer);
        return piece_read(flushed, got, input);
    }
    piece_from(flushed, input, 0, 0)
}

// Whether input is left in its buffer.
fn is_left(streams: Streams, input: &[u8], output: &[u8]) -> bool
    ensures { result ≡ is_left streams input.now output.now }
{
    streams.filled <= input.len()
        && streams.waiting <= output.len()
        && next_place(streams) < streams.filled
}

// The next piece of the input: of the line begun, or of the next one where the last piece ended its line.
pub fn next_piece<P: Print + Eprint, R: Read>(
    rt: &P,
    reader: &mut R,
    streams: Streams,
    input: &mut [u8],
    output: &[u8],
) -> Streams
    ensures { Found streams input.old output.now result input.new
        × Within result input.new output.now }
{
    if is_left(streams, input, output) {
        let from = next_place(streams);
        return piece_from(streams, input, from, streams.filled);
    }
    read_more(rt, reader, streams, input, output)
}

// Whether a line is whole of which so many characters are held: a newline ends it, and the end of input a line that has characters. A read that
// failed ends no line.
pub fn is_whole(streams: Streams, held: usize) -> bool
    ensures { result ≡ is_whole streams held }
{
    streams.ends || (streams.over && 0 < held)
}

// Room for so much more text in the output: where there is less, what waits is written out.
pub fn make_room<P: Print + Eprint>(rt: &P, streams: Streams, output: &[u8], room: usize) -> Streams
    ensures { RoomMade streams output.now room result
        × (result.waiting ≤ length output.now)
        × (room ≤ length output.now → result.waiting + room ≤ length output.now) }
{
    if streams.waiting <= output.len() && room <= output.len() - streams.waiting {
        return streams;
    }
    flush(rt, streams, output)
}

// How much text waits with so much more.
fn waiting_after(waiting: usize, output: &[u8], count: usize) -> usize
    ensures { result ≡ waiting_after waiting output.now count }
{
    match output.len().checked_sub(waiting) {
        Some(room) if count <= room => waiting + count,
        Some(_) => waiting,
        None => 0,
    }
}

// So much more text waits, which the program has put behind what waited.
pub fn add_waiting(streams: Streams, output: &[u8], count: usize) -> Streams
    ensures { result ≡ with_waiting streams (waiting_after streams.waiting output.now count) streams.taken }
{
    Streams {
        waiting: waiting_after(streams.waiting, output, count),
        ..streams
    }
}
