// The calls of the station.
use crate::answers::{Answer, done, letter, malformed, refused};
use crate::shapes::behind;
use link_records::Received;
use links::{Answer as Answered, Link, Refusal};
use octets::{octet_at, read16, read32};
use transactions::Socket;

pub(super) fn answer_of(answered: Result<Answered, Refusal>) -> Answer {
    match answered {
        Ok(Answered::Delivered { length, number }) => letter(b'D').pair(length).octet(number.0),
        Ok(Answered::Closed { reason }) => letter(b'C').octet(reason),
        Ok(Answered::Sending { number, last }) => letter(b'S')
            .octet(number.0)
            .octet((last % 256) as u8),
        Ok(Answered::AcknowledgeAgain) => letter(b'G'),
        Ok(Answered::Kept) => letter(b'K'),
        Ok(Answered::Repeat) => letter(b'R'),
        Ok(Answered::Opened) => letter(b'U'),
        Ok(Answered::Already) => letter(b'Y'),
        Ok(Answered::Acknowledged) => letter(b'A'),
        Ok(Answered::Done) => done(),
        Err(refusal) => refused(refusal_numbers::of_station(refusal)),
    }
}

fn after(links: &mut [Link; 8], received: Received) -> Answer {
    // A variable, since an array is not stored straight from a field of another value.
    let next = received.links;
    *links = next;
    answer_of(received.answer)
}

// A frame is received, with the first octets of the area lent.
pub(super) fn receive(links: &mut [Link; 8], x: &[u8], area: &mut [u8]) -> Answer {
    let lent = usize::from(read16(x, 0));
    let Some(area) = area.get_mut(..lent) else {
        return malformed();
    };
    let received = station::receive(*links, area, behind(x, 2));
    after(links, received)
}

// The local calls.
pub(super) fn open(links: &mut [Link; 8], x: &[u8]) -> Answer {
    let received = local_calls::open(*links, Socket(octet_at(x, 0)), read32(x, 1));
    after(links, received)
}

pub(super) fn send(links: &mut [Link; 8], x: &[u8]) -> Answer {
    let received = local_calls::send(*links, Socket(octet_at(x, 0)), usize::from(read16(x, 1)));
    after(links, received)
}

pub(super) fn close(links: &mut [Link; 8], x: &[u8]) -> Answer {
    let received = local_calls::close(*links, Socket(octet_at(x, 0)));
    after(links, received)
}
