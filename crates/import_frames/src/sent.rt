// A frame as the station sent it: it keeps the link's record as the station had it.
ghost use Rattle.std.specs.Prelude.{◌≡◌, ◌<◌};
ghost use Rattle.links.specs.Station.{frame_refusal};
ghost use Rattle.import_frames.specs.Origins.{socket_at, FoundWithin};
ghost use Rattle.import_frames.specs.Sent.{sends_next, sent_at, closed_at, sent_of, local_step, sent_by, sent_step};

use super::origins::{find_record, frame_origin};
use super::{Asked, outcome_of};
use import_tray::{Step, Tray, refuse};
use link_records::Received;
use links::{Link, Refusal};
use pb_adv::{Frame, FrameRefusal, SegmentHeader};
use stock_table::Origin;
use transactions::{Socket, TransactionNumber};

fn socket_at(place: usize) -> Socket
    requires { place < 8 }
    ensures { result ≡ socket_at place }
{
    Socket(place as u8 + 1)
}

// Whether a number is the next one to be sent, and not outstanding.
fn sends_next(link: Link, number: TransactionNumber) -> bool
    ensures { result ≡ sends_next link number }
{
    !link.outstanding && link.next == number
}

// A Start of a message of so many octets.
fn sent_at(
    links: [Link; 8],
    found: Option<usize>,
    number: TransactionNumber,
    length: u16,
) -> Result<Option<Asked>, Refusal>
    requires { FoundWithin found }
    ensures { result ≡ sent_at links found number length }
{
    let Some(place) = found else {
        return Err(Refusal::UnknownLink);
    };
    if sends_next(link_records::link_at(links, place), number) {
        return Ok(Some(Asked::Send {
            socket: socket_at(place),
            length,
        }));
    }
    Ok(None)
}

fn closed_at(found: Option<usize>) -> Option<Asked>
    requires { FoundWithin found }
    ensures { result ≡ closed_at found }
{
    found.map(|place| Asked::Close(socket_at(place)))
}

// What a frame asks of the records.
fn sent_of(
    links: [Link; 8],
    found: Option<usize>,
    parsed: Result<Frame, FrameRefusal>,
) -> Result<Option<Asked>, Refusal>
    requires { FoundWithin found }
    ensures { result ≡ sent_of links found parsed }
{
    match parsed? {
        Frame::Segment(segment) => {
            let SegmentHeader::Start { length, .. } = segment.header else {
                return Ok(None);
            };
            sent_at(links, found, segment.number, length)
        }
        Frame::Close { .. } => Ok(closed_at(found)),
        _ => Ok(None),
    }
}

// After a local call: nothing but its refusal is written.
fn local_step(tray: Tray, line: u64, origin: Origin, called: Received) -> Step
    ensures { result ≡ local_step tray line origin called.answer called.links }
{
    let after = import_tray::with_links(tray, called.links);
    if let Err(refusal) = outcome_of(called.answer) {
        return refuse(after, line, origin, refusal_numbers::of_station(refusal));
    }
    Step {
        tray: after,
        report: None,
    }
}

fn take_asked(tray: Tray, line: u64, origin: Origin, asked: Result<Option<Asked>, Refusal>) -> Step
    ensures { result ≡ sent_by asked tray line origin }
{
    match asked {
        Ok(None) => Step { tray, report: None },
        Ok(Some(Asked::Send { socket, length })) => {
            local_step(
                tray,
                line,
                origin,
                local_calls::send(tray.links, socket, length as usize),
            )
        }
        Ok(Some(Asked::Close(socket))) => {
            local_step(tray, line, origin, local_calls::close(tray.links, socket))
        }
        Err(refusal) => refuse(tray, line, origin, refusal_numbers::of_station(refusal)),
    }
}

// A frame as the station sent it, in the line of that number.
pub fn take_sent(tray: Tray, line: u64, frame: &[u8]) -> Step
    ensures { result ≡ sent_step tray line frame.now }
{
    let links = tray.links;
    let parsed = pb_adv::parse(frame);
    let found = find_record(links, parsed);
    let origin = frame_origin(links, parsed);
    take_asked(tray, line, origin, sent_of(links, found, parsed))
}
