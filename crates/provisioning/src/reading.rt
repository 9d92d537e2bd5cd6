// The reader of provisioning messages.
ghost use Rattle.std.specs.Prelude.{◌≡◌, ◌≤◌};
ghost use Rattle.provisioning.specs.Layout.{parameter_length};
ghost use Rattle.provisioning.specs.Message.{
  capabilities_of,
  choice_of,
  message_of,
  prohibited_capabilities,
  prohibited_choice,
  is_prohibited,
  judged,
  message_read,
};

use super::{Capabilities, Choice, Field, Message, MessageRefusal};
use octets::{octet_at, read16};

// Stays a number: an enum between the type octet and the message would name each type once more, which is no plainer.
fn parameter_length(kind: u8) -> usize
    ensures { (result ≡ parameter_length kind) × (result ≤ 64) }
{
    match kind {
        0 => 1,
        1 => 11,
        2 => 5,
        3 => 64,
        4 => 0,
        5 => 16,
        6 => 16,
        7 => 33,
        8 => 0,
        9 => 1,
        _ => 0,
    }
}

fn capabilities(message: &[u8]) -> Capabilities
    ensures { result ≡ capabilities_of message.now }
{
    Capabilities {
        elements: octet_at(message, 1),
        algorithms: read16(message, 2),
        public_key_type: octet_at(message, 4),
        static_oob_type: octet_at(message, 5),
        output_oob_size: octet_at(message, 6),
        output_oob_action: read16(message, 7),
        input_oob_size: octet_at(message, 9),
        input_oob_action: read16(message, 10),
    }
}

fn choice(message: &[u8]) -> Choice
    ensures { result ≡ choice_of message.now }
{
    Choice {
        algorithm: octet_at(message, 1),
        public_key: octet_at(message, 2),
        method: octet_at(message, 3),
        action: octet_at(message, 4),
        size: octet_at(message, 5),
    }
}

fn field(place: usize, length: usize) -> Field
    ensures { result ≡ record { place = place; length = length } }
{
    Field { place, length }
}

// The message of a type, 0 to 9.
#[tactic(auto, using(octets::proofs::Tests::tests), unfolding(crate::specs::Message::message_of))]
fn message_of(message: &[u8], kind: u8) -> Message
    ensures { result ≡ message_of message.now kind }
{
    match kind {
        0 => Message::Invite {
            attention: octet_at(message, 1),
        },
        1 => Message::Capabilities(capabilities(message)),
        2 => Message::Start(choice(message)),
        3 => Message::PublicKey {
            x: field(1, 32),
            y: field(33, 32),
        },
        4 => Message::InputComplete,
        5 => Message::Confirmation {
            confirmation: field(1, 16),
        },
        6 => Message::Random {
            random: field(1, 16),
        },
        7 => Message::Data {
            encrypted: field(1, 25),
            mic: field(26, 8),
        },
        8 => Message::Complete,
        _ => Message::Failed {
            code: octet_at(message, 1),
        },
    }
}

#[tactic(auto, using(octets::proofs::Tests::tests), unfolding(crate::specs::Message::prohibited_capabilities))]
fn prohibited_capabilities(c: Capabilities) -> bool
    ensures { result ≡ prohibited_capabilities c }
{
    c.elements == 0 || 2 <= c.public_key_type || 2 <= c.static_oob_type
}

#[tactic(auto, using(octets::proofs::Tests::tests), unfolding(crate::specs::Message::prohibited_choice))]
fn prohibited_choice(c: Choice) -> bool
    ensures { result ≡ prohibited_choice c }
{
    if 2 <= c.public_key || 4 <= c.method {
        return true;
    }
    if c.method <= 1 {
        c.action != 0 || c.size != 0
    } else {
        c.size == 0
    }
}

fn is_prohibited(message: Message) -> bool
    ensures { result ≡ is_prohibited message }
{
    match message {
        Message::Capabilities(c) => prohibited_capabilities(c),
        Message::Start(c) => prohibited_choice(c),
        Message::Failed { code } => code == 0,
        _ => false,
    }
}

fn judge(message: Message) -> Result<Message, MessageRefusal>
    ensures { result ≡ judged message }
{
    if is_prohibited(message) {
        Err(MessageRefusal::Prohibited)
    } else {
        Ok(message)
    }
}

// What any octets say as a provisioning message, or refusals 41 to 45 in that order.
#[tactic(auto, using(octets::proofs::Tests::tests), unfolding(crate::specs::Message::message_read))]
pub fn read_message(message: &[u8]) -> Result<Message, MessageRefusal>
    ensures { result ≡ message_read message.now }
{
    if message.is_empty() {
        return Err(MessageRefusal::Empty);
    }
    let kind = message[0];
    if 0x40 <= kind {
        return Err(MessageRefusal::Padding);
    }
    if 10 <= kind {
        return Err(MessageRefusal::UnknownType);
    }
    if message.len() != 1 + parameter_length(kind) {
        return Err(MessageRefusal::WrongLength);
    }
    judge(message_of(message, kind))
}
