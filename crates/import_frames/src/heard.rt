// A frame as it was heard.
ghost use Rattle.std.specs.Prelude.{◌≡◌, ◌*◌, ◌<◌};
ghost use Rattle.octets.specs.Parts.{part};
ghost use Rattle.links.specs.Links.{provisioner};
ghost use Rattle.links.specs.Promises.{addressed};
ghost use Rattle.pb_adv.specs.Frame.{parsed};
ghost use Rattle.provisioning.specs.Message.{message_read};
ghost use Rattle.station.specs.Calls.{receiving};
ghost use Rattle.import_frames.specs.Origins.{FoundWithin};
ghost use Rattle.import_frames.specs.Heard.{next_of, is_repeat, refused_report, delivered_step, heard_by, heard_step, heard_area};

use super::origins::{find_record, frame_origin};
use super::{Delivery, outcome_of};
use import_messages::take_message;
use import_tray::{Step, Tray};
use links::{Link, Refusal};
use octets::LONGEST_MESSAGE;
use pb_adv::{Frame, FrameRefusal};
use provisioning::{Message, MessageRefusal};
use stock_table::Row;
use transactions::TransactionNumber;

// The next sending number of the record that was found.
fn next_of(links: [Link; 8], found: Option<usize>) -> TransactionNumber
    ensures { result ≡ next_of links found }
{
    let Some(place) = found else {
        return TransactionNumber(0);
    };
    link_records::link_at(links, place).next
}

// Whether a refusal is one of the two repeats that every radio brings.
fn is_repeat(next: TransactionNumber, parsed: Result<Frame, FrameRefusal>, refusal: Refusal) -> bool
    ensures { result ≡ is_repeat next parsed refusal }
{
    let Ok(frame) = parsed else {
        return false;
    };
    match frame {
        Frame::Acknowledgement { number, .. } => {
            refusal == Refusal::NotOutstanding && number.0 as u16 + 1 == next.0 as u16
        }
        Frame::Close { .. } => refusal == Refusal::UnknownLink,
        _ => false,
    }
}

// What is written of a refusal.
fn report_refusal(links: [Link; 8], frame: &[u8], line: u64, refusal: Refusal) -> Option<Row>
    ensures { result ≡ refused_report links (parsed frame.now) line refusal }
{
    let parsed = pb_adv::parse(frame);
    let found = find_record(links, parsed);
    if is_repeat(next_of(links, found), parsed, refusal) {
        return None;
    }
    let origin = frame_origin(links, parsed);
    Some(stock_table::refused_row(line, origin, refusal_numbers::of_station(refusal)))
}

// The message of so many octets at the start of a place's part; in fewer octets where the area ends before.
fn message_at(area: &[u8], place: usize, length: u16) -> Result<Message, MessageRefusal>
    requires { place < 8 }
    ensures { result ≡ message_read (part area.now (1469 * place) length) }
{
    let from = (LONGEST_MESSAGE * place).min(area.len());
    let n = (length as usize).min(area.len() - from);
    provisioning::read_message(&area[from..from + n])
}

// A delivery of so many octets: the message stands in the part of the record that the frame's Link ID found.
fn deliver(tray: Tray, links: [Link; 8], area: &[u8], line: u64, frame: &[u8], length: u16) -> Step
    ensures { result ≡ delivered_step (addressed provisioner links (parsed frame.now)) (parsed frame.now) tray area.now line length }
{
    let parsed = pb_adv::parse(frame);
    let found = find_record(links, parsed);
    let Some(place) = found else {
        return Step { tray, report: None };
    };
    let origin = frame_origin(links, parsed);
    take_message(tray, place, line, origin, message_at(area, place, length))
}

// What the station's answer comes to, with the records before the frame and the tray after it.
fn tell_heard(
    outcome: Result<Option<Delivery>, Refusal>,
    tray: Tray,
    links: [Link; 8],
    area: &[u8],
    line: u64,
    frame: &[u8],
) -> Step
    ensures { result ≡ heard_by outcome links (parsed frame.now) tray area.now line }
{
    match outcome {
        Ok(Some(delivery)) => deliver(tray, links, area, line, frame, delivery.length),
        Ok(None) => Step { tray, report: None },
        Err(refusal) => Step {
            tray,
            report: report_refusal(links, frame, line, refusal),
        },
    }
}

// A frame as it was heard, in the line of that number: the receiving call, then by its answer.
pub fn take_heard(tray: Tray, area: &mut [u8], line: u64, frame: &[u8]) -> Step
    ensures { (result ≡ heard_step tray area.old line frame.now)
        × (area.new ≡ heard_area tray area.old frame.now) }
{
    let links = tray.links;
    let called = station::receive(links, area, frame);
    tell_heard(
        outcome_of(called.answer),
        import_tray::with_links(tray, called.links),
        links,
        &area[..],
        line,
        frame,
    )
}
