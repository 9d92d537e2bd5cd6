// The steps of a line, by its kind.
ghost use Rattle.std.specs.Prelude.{◌≡◌, length};
ghost use Rattle.import_lines.specs.Lines.{opened_by, opened_step, wrong_line, plain_step, other_step, sent_line, unheard_step, line_step, line_area, FrameRead};

use hexadecimal::DecodeError;
use import_frames::{Delivery, outcome_of};
use import_tray::{Step, Stock, Tray, refuse};
use line_fields::Field;
use links::Refusal;
use log_lines::read_opening;
use octets::octet_at;
use stock_table::Origin;
use transactions::Socket;

// An argument that is wrong: a line of no form.
fn refuse_line(tray: Tray, number: u64) -> Step
    ensures { result ≡ wrong_line tray number }
{
    refuse(
        tray,
        number,
        Origin::default(),
        refusal_numbers::of_station(Refusal::WrongArgument),
    )
}

// After the local Open, by what its answer comes to.
fn tell_opened(
    outcome: Result<Option<Delivery>, Refusal>,
    tray: Tray,
    number: u64,
    socket: Socket,
    id: u32,
) -> Step
    ensures { result ≡ opened_by outcome tray number socket id }
{
    if let Err(refusal) = outcome {
        let origin = Origin {
            socket: Field::Decimal(socket.0 as u64),
            id: Field::Number(id),
            ..Origin::default()
        };
        return refuse(tray, number, origin, refusal_numbers::of_station(refusal));
    }
    Step {
        tray: import_tray::with_stock(tray, socket.place(), Stock::Missing),
        report: None,
    }
}

fn open_socket(tray: Tray, number: u64, socket: Socket, id: u32) -> Step
    ensures { result ≡ opened_step tray number socket id }
{
    let called = local_calls::open(tray.links, socket, id);
    tell_opened(
        outcome_of(called.answer),
        import_tray::with_links(tray, called.links),
        number,
        socket,
        id,
    )
}

// A line that is neither frame nor opening.
fn take_plain(tray: Tray, number: u64, line: &[u8]) -> Step
    ensures { result ≡ plain_step tray number line.now }
{
    if line.is_empty() || octet_at(line, 0) == b'#' {
        return Step { tray, report: None };
    }
    refuse_line(tray, number)
}

// A line that is no frame.
fn take_other(tray: Tray, number: u64, line: &[u8]) -> Step
    ensures { result ≡ other_step tray number line.now }
{
    match read_opening(line) {
        Some(opening) => open_socket(tray, number, opening.socket, opening.id),
        None => take_plain(tray, number, line),
    }
}

// The octets of a frame's digits; how many. One octet more than a frame has: a longer one is refused as one of 30 octets is.
fn read_frame(digits: &[u8], frame: &mut [u8]) -> Option<usize>
    requires { length frame.old ≡ 30 }
    ensures { FrameRead digits.now frame.old result frame.new }
{
    match hexadecimal::decode(digits, frame) {
        Ok(n) => (n > 0).then_some(n),
        Err(DecodeError::NotHexadecimal) => None,
        Err(DecodeError::TooLong) => Some(30),
    }
}

// The digits behind the mark of a frame that was sent.
fn take_sent_line(tray: Tray, number: u64, digits: &[u8]) -> Step
    ensures { result ≡ sent_line tray number digits.now }
{
    let mut frame = [0u8; 30];
    match read_frame(digits, &mut frame) {
        Some(count) => import_frames::take_sent(tray, number, &frame[..count]),
        None => refuse_line(tray, number),
    }
}

// A line that is no frame heard.
fn take_unheard(tray: Tray, number: u64, line: &[u8]) -> Step
    ensures { result ≡ unheard_step tray number line.now }
{
    match line.strip_prefix(b">") {
        Some(digits) => take_sent_line(tray, number, digits),
        None => take_other(tray, number, line),
    }
}

// Imports one line of a log, the line of that number, of any length and content.
pub fn import_line(tray: Tray, area: &mut [u8], number: u64, line: &[u8]) -> Step
    ensures { (result ≡ line_step tray area.old number line.now)
        × (area.new ≡ line_area tray area.old line.now) }
{
    let mut frame = [0u8; 30];
    match read_frame(line, &mut frame) {
        Some(count) => import_frames::take_heard(tray, area, number, &frame[..count]),
        None => take_unheard(tray, number, line),
    }
}
