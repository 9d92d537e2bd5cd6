// Provisioning messages read whole, and the view over a message.
use crate::answers::{Answer, done, letter, malformed, refused};
use crate::shapes::behind;
use crate::storages::BUFFER;
use arrayvec::ArrayVec;
use message_view::{FieldRead, PastEnd, Wanted};
use octets::{octet_at, read16};
use provisioning::{Capabilities, Choice, Field, Message, MessageRefusal};

fn put_capabilities(before: Answer, c: Capabilities) -> Answer {
    before
        .octet(c.elements)
        .pair(c.algorithms)
        .octet(c.public_key_type)
        .octet(c.static_oob_type)
        .octet(c.output_oob_size)
        .pair(c.output_oob_action)
        .octet(c.input_oob_size)
        .pair(c.input_oob_action)
}

fn put_choice(before: Answer, c: Choice) -> Answer {
    before
        .octet(c.algorithm)
        .octet(c.public_key)
        .octet(c.method)
        .octet(c.action)
        .octet(c.size)
}

// A long field's place and length.
fn put_field(before: Answer, field: Field) -> Answer {
    before
        .pair((field.place % 65536) as u16)
        .pair((field.length % 65536) as u16)
}

fn put_fields(before: Answer, first: Field, second: Field) -> Answer {
    put_field(put_field(before, first), second)
}

// The fields of a message, behind its type.
fn put_message(before: Answer, message: Message) -> Answer {
    match message {
        Message::Invite { attention } => before.octet(attention),
        Message::Capabilities(c) => put_capabilities(before, c),
        Message::Start(c) => put_choice(before, c),
        Message::PublicKey { x, y } => put_fields(before, x, y),
        Message::Confirmation { confirmation } => put_field(before, confirmation),
        Message::Random { random } => put_field(before, random),
        Message::Data { encrypted, mic } => put_fields(before, encrypted, mic),
        Message::Failed { code } => before.octet(code),
        // Input Complete and Complete have none.
        _ => before,
    }
}

pub(super) fn read(x: &[u8]) -> Answer {
    match provisioning::read_message(x) {
        Ok(message) => put_message(letter(b'M').octet(octet_at(x, 0)), message),
        Err(refusal) => refused(refusal_numbers::of_message(refusal)),
    }
}

fn field_answer(field: Result<FieldRead, PastEnd>) -> Answer {
    match field {
        Ok(FieldRead::Octet(n)) => letter(b'N').octet(n),
        Ok(FieldRead::Pair(n)) => letter(b'N').pair(n),
        Ok(FieldRead::Long(f)) => put_field(letter(b'P'), f),
        Err(PastEnd) => refused(refusal_numbers::of_message(MessageRefusal::WrongLength)),
    }
}

// The view: the octets that it is over, and the place reached.
#[derive(Drop)]
pub(super) struct Viewed {
    octets: ArrayVec<u8, BUFFER>,
    place: usize,
}

impl Viewed {
    // Of no octets, at place 0.
    pub(super) fn new() -> Viewed {
        Viewed {
            octets: ArrayVec::new(),
            place: 0,
        }
    }

    fn set(&mut self, x: &[u8]) -> Answer {
        let Ok(octets) = ArrayVec::try_from(behind(x, 2)) else {
            return malformed();
        };
        *self = Viewed {
            octets,
            place: usize::from(read16(x, 0)),
        };
        done()
    }

    pub(super) fn show(&self) -> Answer {
        letter(b'V').pair((self.place % 65536) as u16)
    }

    fn take(&mut self, wanted: Wanted) -> Answer {
        let step = message_view::take_at(self.octets.as_slice(), self.place, wanted);
        self.place = step.next;
        field_answer(step.field)
    }

    // An operation by its second letter.
    pub(super) fn perform(&mut self, second: u8, x: &[u8]) -> Answer {
        match second {
            b'S' => self.set(x),
            b'D' => self.show(),
            b'B' => self.take(Wanted::Octet),
            b'W' => self.take(Wanted::Pair),
            _ => self.take(Wanted::Long(usize::from(read16(x, 0)))),
        }
    }
}
