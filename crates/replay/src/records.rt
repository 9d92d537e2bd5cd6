// The operations that set and show the link records. A record is 22 octets: its use, Link ID, next sending number, whether it is outstanding,
// the last delivered number, and the half-received message with its marks.
use crate::answers::{Answer, done, letter, malformed};
use crate::shapes::behind;
use links::{HalfMessage, Link, LinkState};
use octets::{octet_at, read16, read32};
use transactions::{Socket, TransactionNumber};

// A function and no `From`, as `use_octet` below: `LinkState` is the library's, and 2 and more are all one.
fn state_of(octet: u8) -> LinkState {
    match octet {
        0 => LinkState::Free,
        1 => LinkState::Opening,
        _ => LinkState::Open,
    }
}

fn last_of(x: &[u8]) -> Option<TransactionNumber> {
    if octet_at(x, 7) == 0 {
        return None;
    }
    Some(TransactionNumber(octet_at(x, 8)))
}

fn half_of(x: &[u8]) -> Option<HalfMessage> {
    if octet_at(x, 9) == 0 {
        return None;
    }
    let mut marks = [0u8; 8];
    octet_parts::copy(&mut marks, 0, x, 14, 8);
    Some(HalfMessage {
        number: TransactionNumber(octet_at(x, 10)),
        length: read16(x, 11),
        check: octet_at(x, 13),
        marks: u64::from_be_bytes(marks),
    })
}

pub(super) fn link_of(x: &[u8]) -> Link {
    Link {
        state: state_of(octet_at(x, 0)),
        id: read32(x, 1),
        next: TransactionNumber(octet_at(x, 5)),
        outstanding: octet_at(x, 6) == 1,
        last: last_of(x),
        half: half_of(x),
    }
}

// A socket's record, if there is such a socket.
fn record_of(links: &mut [Link; 8], socket: Socket) -> Option<&mut Link> {
    if socket.is_one_of(8) {
        links.get_mut(socket.place())
    } else {
        None
    }
}

fn set(links: &mut [Link; 8], x: &[u8]) -> Answer {
    let Some(record) = record_of(links, Socket(octet_at(x, 0))) else {
        return malformed();
    };
    *record = link_of(behind(x, 1));
    done()
}

fn use_octet(state: LinkState) -> u8 {
    match state {
        LinkState::Free => 0,
        LinkState::Opening => 1,
        LinkState::Open => 2,
    }
}

fn put_last(before: Answer, last: Option<TransactionNumber>) -> Answer {
    match last {
        None => before.pair(0),
        Some(t) => before.octet(1).octet(t.0),
    }
}

fn put_message(before: Answer, m: HalfMessage) -> Answer {
    before
        .octet(1)
        .octet(m.number.0)
        .pair(m.length)
        .octet(m.check)
        .part(&m.marks.to_be_bytes(), 0, 8)
}

fn put_half(before: Answer, half: Option<HalfMessage>) -> Answer {
    match half {
        None => before.octet(0).long(0).long(0).long(0),
        Some(m) => put_message(before, m),
    }
}

pub(super) fn put_record(before: Answer, link: Link) -> Answer {
    let shown = before
        .octet(use_octet(link.state))
        .long(link.id)
        .octet(link.next.0)
        .flag(link.outstanding);
    put_half(put_last(shown, link.last), link.half)
}

fn show(links: &mut [Link; 8], x: &[u8]) -> Answer {
    match record_of(links, Socket(octet_at(x, 0))) {
        Some(record) => put_record(letter(b'L'), *record),
        None => malformed(),
    }
}

pub(super) fn show_all(links: &[Link; 8]) -> Answer {
    links
        .iter()
        .fold(letter(b'L'), |shown, link| put_record(shown, *link))
}

// An operation by its second letter.
pub(super) fn perform(second: u8, links: &mut [Link; 8], x: &[u8]) -> Answer {
    match second {
        b'S' => set(links, x),
        b'D' => show(links, x),
        _ => show_all(links),
    }
}
