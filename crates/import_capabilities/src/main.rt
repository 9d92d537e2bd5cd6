// Reads the log of a tray, from standard input or from the file that its argument names, and writes the stock table to standard output.
#![tactic(auto)]

ghost use Rattle.std.specs.Prelude.{true, ◌≡◌, ◌≤◌, length, replicate};
ghost use Rattle.octets.specs.Writing.{written, output_after};
ghost use Rattle.held_line.specs.Lines.{held_text};
ghost use Rattle.import_tray.specs.Trays.{report_text, last_report};
ghost use Rattle.import_log.specs.Logs.{taken, area_after};
ghost use Rattle.import_capabilities.specs.Turns.{waiting_with, RowWaits, whole_line, Turn, SocketsPut, LastPut, EndPut};
ghost use Rattle.import_capabilities.specs.Runs.{Starts, Ran};

use held_line::HeldLine;
use import_log::{Log, Taken};
use line_fields::MOST;
use lines::Streams;
use octets::Written;
use std::env::{Env, FillError};
use std::fs;
use std::io::Read;
use std::rt::Files;
use stock_table::Row;
use transactions::Socket;

// What is written out together: it has room for any row.
type Output = [u8; 65536];

// How far the program has come.
#[derive(Clone, Copy)]
struct Progress {
    streams: Streams,
    line: HeldLine,
    log: Log,
}

// The text at the end of what waited waits too.
fn waits(streams: Streams, answer: Written, output: &[u8]) -> Streams
    ensures { result ≡ waiting_with streams answer output.now }
{
    let Ok(n) = answer else {
        // Never: room was made for any row.
        return streams;
    };
    lines::add_waiting(streams, output, n)
}

// The text of a report at the start of the output, or refusal 11.
fn write_report(report: Option<Row>, output: &mut [u8]) -> Written
    ensures { (result ≡ written true (report_text report) output.old)
        × (output.new ≡ output_after true (report_text report) output.old)
        × (length (report_text report) ≤ 315) }
{
    let Some(row) = report else {
        return Ok(0);
    };
    stock_table::write_row(row, output)
}

// The row of a report waits.
// The handle, the streams and the output stay parameters here and below: a struct of them would lend the output, and each contract would speak of it through
// the loan. Here alone the output is a slice with a clause on its length: over the array the proof, which takes what stands behind the text, did not close.
fn put_report<P: Print + Eprint>(
    rt: &P,
    before: Streams,
    report: Option<Row>,
    output: &mut [u8],
) -> Streams
    requires { 315 ≤ length output.old }
    ensures { RowWaits before output.old (report_text report) result output.new }
{
    let streams = lines::make_room(rt, before, output, MOST);
    let answer = write_report(report, &mut output[streams.waiting..]);
    waits(streams, answer, output)
}

// Takes the line that is held.
fn take_held(log: Log, area: &mut [u8], line: HeldLine) -> Taken
    ensures { (result ≡ taken log area.old (held_text line))
        × (area.new ≡ area_after log area.old (held_text line)) }
{
    let count = line.count.min(64);
    import_log::take_line(log, area, &line.characters[..count])
}

// What is held of a line at its end, by a newline or by the end of input.
fn whole_line(streams: Streams, line: HeldLine) -> HeldLine
    ensures { result ≡ whole_line streams line }
{
    if streams.ends {
        return line;
    }
    held_line::settle(line)
}

// Reads on as far as a line's end, or the end of what is there. Where the line is then whole, it is taken, and its row waits in the output.
fn take_turn<P: Print + Eprint, R: Read>(
    rt: &P,
    reader: &mut R,
    progress: Progress,
    input: &mut [u8],
    area: &mut [u8],
    output: &mut Output,
) -> Progress
    ensures { Turn progress input.old area.old output.old result input.new area.new output.new }
{
    let streams = lines::next_piece(rt, reader, progress.streams, input, output);
    let line = held_line::hold_piece(progress.line, &input[streams.from..streams.to]);
    let begun = held_line::begun(line);
    if lines::is_whole(streams, begun) {
        let whole = whole_line(streams, line);
        let taken = take_held(progress.log, area, whole);
        return Progress {
            streams: put_report(rt, streams, taken.report, output),
            line: held_line::empty_line(),
            log: taken.log,
        };
    }
    Progress {
        streams,
        line,
        log: progress.log,
    }
}

// The header is the first row, always.
fn begin(output: &mut Output) -> Progress
    ensures { Starts output.old result output.new }
{
    let answer = stock_table::write_header(output);
    Progress {
        streams: waits(lines::start(), answer, output),
        line: held_line::empty_line(),
        log: import_log::new_log(),
    }
}

// What is said of a socket after the last line.
fn put_socket<P: Print + Eprint>(
    rt: &P,
    log: Log,
    socket: Socket,
    before: Streams,
    output: &mut Output,
) -> Streams
    ensures { RowWaits before output.old (report_text (last_report log.tray socket)) result output.new }
{
    let report = import_tray::last_report(log.tray, socket);
    put_report(rt, before, report, output)
}

// The same of every socket.
fn put_sockets<P: Print + Eprint>(rt: &P, log: Log, before: Streams, output: &mut Output) -> Streams
    ensures { SocketsPut log.tray before output.old 8 result output.new }
{
    let mut streams = before;
    for socket in 1..=8 {
        streams = put_socket(rt, log, Socket(socket), streams, output);
    }
    streams
}

// The rows after the last line.
fn put_last<P: Print + Eprint>(rt: &P, log: Log, before: Streams, output: &mut Output) -> Streams
    ensures { LastPut log before output.old result output.new }
{
    let streams = put_sockets(rt, log, before, output);
    let row = stock_table::end_row(log.lines);
    put_report(rt, streams, Some(row), output)
}

// At the end of the input the last rows; a table that was cut short has none of them.
fn put_end<P: Print + Eprint>(rt: &P, progress: Progress, output: &mut Output) -> Streams
    ensures { EndPut progress output.old result output.new }
{
    if progress.streams.over {
        return put_last(rt, progress.log, progress.streams, output);
    }
    progress.streams
}

// Takes turns for as long as pieces are found, and writes out what still waits. What it then has is handed back so that the contract can speak of it.
fn run<P: Print + Eprint, R: Read>(
    rt: &P,
    reader: &mut R,
    input: &mut [u8],
    area: &mut [u8],
    output: &mut Output,
) -> Progress
    requires { area.old ≡ replicate 11752 0 }
    ensures { Ran input.old output.old result input.new area.new output.new }
{
    let mut progress = begin(output);
    // Nothing says that the input ends, so there is a number of turns that no run uses up.
    for turn in 0..u64::MAX {
        progress = take_turn(rt, reader, progress, input, area, output);
        if !progress.streams.found {
            break;
        }
    }
    let put = put_end(rt, progress, output);
    Progress {
        streams: lines::flush(rt, put, output),
        ..progress
    }
}

// Imports the log that a reader has.
fn import<P: Print + Eprint, R: Read>(rt: &P, reader: &mut R) {
    let mut input = io::large_buffer();
    let mut output = io::large_buffer();
    let mut area = [0u8; station::AREA_LENGTH];
    run(rt, reader, &mut input, &mut area, &mut output);
}

// Imports the file of a name.
fn import_file<H: Files + Print + Eprint>(rt: &H, name: &[u8]) {
    let Ok(name) = str::from_utf8(name) else {
        let _ = eprintln!(rt; "the name of the file: not UTF-8");
        return;
    };
    match fs::open(rt, name) {
        Ok(mut file) => import(rt, &mut file),
        Err(error) => lines::say_failed(rt, name, error),
    }
}

fn main(rt: HostRuntime) {
    let mut name = io::buffer();
    let first = rt.arg(1, &mut name);
    if matches!(first, Err(FillError::NotPresent)) {
        import(&rt, &mut rt.stdin());
        return;
    }
    let second = rt.arg(2, &mut []);
    if !matches!(second, Err(FillError::NotPresent)) || name[0] == b'-' {
        let _ = eprintln!(rt; "usage: import_capabilities [FILE]");
        return;
    }
    match first {
        Ok(length) => import_file(&rt, &name[..length]),
        Err(_) => {
            let _ = eprintln!(rt; "the name of the file: File name too long");
        }
    }
}
