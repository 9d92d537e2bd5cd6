// Rehearses a tray: eight links are opened, and on each come 100 messages of 1,469 octets, the frames of the eight links mixed and every
// frame twice. It writes how often each answer was given, and whether the last messages stand in the area as they were sent.
#![tactic(auto)]

use links::{Answer, Link, Refusal};
use octets::LONGEST_MESSAGE;
use station::AREA_LENGTH;
use transactions::{Socket, TransactionNumber};

// How often each answer was given.
#[derive(Clone, Copy)]
struct Tally {
    opened: u32,
    kept: u32,
    repeated: u32,
    delivered: u32,
    again: u32,
    other: u32,
}

// The station's records and the tally so far.
#[derive(Clone, Copy)]
struct Tray {
    links: [Link; 8],
    tally: Tally,
}

impl Tally {
    fn count(&mut self, answer: Result<Answer, Refusal>) {
        let given = match answer {
            Ok(Answer::Opened) => &mut self.opened,
            Ok(Answer::Kept) => &mut self.kept,
            Ok(Answer::Repeat) => &mut self.repeated,
            Ok(Answer::Delivered { .. }) => &mut self.delivered,
            Ok(Answer::AcknowledgeAgain) => &mut self.again,
            _ => &mut self.other,
        };
        *given = given.saturating_add(1);
    }
}

fn id_of(socket: Socket) -> u32 {
    0x23AF5800 + socket.0 as u32
}

impl Tray {
    // A frame of so many octets comes in.
    fn bring(&mut self, area: &mut [u8], frame: &[u8], length: usize) {
        let Some(frame) = frame.get(..length) else {
            return;
        };
        let r = station::receive(self.links, area, frame);
        // Through a local, here and below: the check has no rule for an array taken out of what a call hands back.
        let links = r.links;
        self.links = links;
        self.tally.count(r.answer);
    }

    // Opens a link, and its Ack comes in.
    fn open_link(&mut self, area: &mut [u8], socket: Socket) {
        let r = local_calls::open(self.links, socket, id_of(socket));
        let links = r.links;
        self.links = links;
        let mut frame = [0u8; 29];
        let Ok(n) = control_writing::write_ack(id_of(socket), &mut frame) else {
            return;
        };
        self.bring(area, &frame, n);
    }

    // The frame of one segment of a socket's message comes in, and then comes again.
    fn bring_twice(
        &mut self,
        area: &mut [u8],
        messages: &[u8],
        socket: Socket,
        number: TransactionNumber,
        index: usize,
    ) {
        let mut frame = [0u8; 29];
        let Some(message) = messages.chunks_exact(LONGEST_MESSAGE).nth(socket.place()) else {
            return;
        };
        let Ok(n) = pb_adv_writing::write_segment(id_of(socket), number, message, index, &mut frame)
        else {
            return;
        };
        self.bring(area, &frame, n);
        self.bring(area, &frame, n);
    }

    fn open_all(&mut self, area: &mut [u8]) {
        for socket in 1..=8 {
            self.open_link(area, Socket(socket));
        }
    }

    // One segment of each socket's message.
    fn bring_row(
        &mut self,
        area: &mut [u8],
        messages: &[u8],
        number: TransactionNumber,
        index: usize,
    ) {
        for socket in 1..=8 {
            self.bring_twice(area, messages, Socket(socket), number, index);
        }
    }

    // One message on each socket.
    fn bring_round(&mut self, area: &mut [u8], messages: &[u8], number: TransactionNumber) {
        for index in 0..64 {
            self.bring_row(area, messages, number, index);
        }
    }

    fn bring_rounds(&mut self, area: &mut [u8], messages: &[u8]) {
        let mut number = TransactionNumber(0x80);
        for _ in 0..100 {
            self.bring_round(area, messages, number);
            number = number.next();
        }
    }
}

// Octets that differ from place to place and from socket to socket.
fn fill(messages: &mut [u8]) {
    for (i, octet) in messages.iter_mut().enumerate() {
        *octet = ((i % 65536 * 7 + i / 251) % 256) as u8;
    }
}

// Where standard output takes no more, nothing says so.
fn write_count(rt: &impl Print, word: &str, count: u32) {
    let _ = println!(rt; "{word} {count}");
}

fn write_tally(rt: &impl Print, tally: Tally) {
    write_count(rt, "opened", tally.opened);
    write_count(rt, "kept", tally.kept);
    write_count(rt, "repeat", tally.repeated);
    write_count(rt, "delivered", tally.delivered);
    write_count(rt, "acknowledge again", tally.again);
    write_count(rt, "other", tally.other);
}

fn main(rt: HostRuntime) {
    let mut area = [0u8; AREA_LENGTH];
    // The messages stand as they will stand in the area.
    let mut messages = [0u8; AREA_LENGTH];
    fill(&mut messages);
    let mut tray = Tray {
        links: link_records::blank_links(),
        tally: Tally {
            opened: 0,
            kept: 0,
            repeated: 0,
            delivered: 0,
            again: 0,
            other: 0,
        },
    };
    tray.open_all(&mut area);
    tray.bring_rounds(&mut area, &messages);
    write_tally(&rt, tray.tally);
    if area == messages {
        let _ = println!(rt; "the area holds the messages");
    }
}
