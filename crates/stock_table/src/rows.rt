// The rows, by what they say.
ghost use Rattle.std.specs.Prelude.{◌≡◌};
ghost use Rattle.stock_table.specs.Rows.{bare_row, record_row, message_word, word_of, message_row, refused_row, socket_row, end_row};

use super::{Origin, Row};
use line_fields::{Field, Word};
use provisioning::{Capabilities, Message, MessageRefusal};
use transactions::Socket;

// A row that says what it is and where it comes from.
fn bare_row(what: Word, line: Field, origin: Origin) -> Row
    ensures { result ≡ bare_row what line origin }
{
    Row {
        what,
        line,
        origin,
        refusal: Field::Empty,
        message: Field::Empty,
        stated: None,
    }
}

// A Capabilities message: a record, or one after it.
pub fn record_row(what: Word, line: u64, origin: Origin, capabilities: Capabilities) -> Row
    ensures { result ≡ record_row what line origin capabilities }
{
    Row {
        message: Field::Word(Word::Capabilities),
        stated: Some(capabilities),
        ..bare_row(what, Field::Decimal(line), origin)
    }
}

fn message_word(message: Message) -> Word
    ensures { result ≡ message_word message }
{
    match message {
        Message::Invite { .. } => Word::Invite,
        Message::Capabilities(_) => Word::Capabilities,
        Message::Start(_) => Word::Start,
        Message::PublicKey { .. } => Word::PublicKey,
        Message::InputComplete => Word::InputComplete,
        Message::Confirmation { .. } => Word::Confirmation,
        Message::Random { .. } => Word::Random,
        Message::Data { .. } => Word::Data,
        Message::Complete => Word::Complete,
        Message::Failed { .. } => Word::Failed,
    }
}

// The name of a message; a refusal has none.
fn word_of(message: Result<Message, MessageRefusal>) -> Field
    ensures { result ≡ word_of message }
{
    match message {
        Ok(message) => Field::Word(message_word(message)),
        Err(_) => Field::Empty,
    }
}

// A message of another kind. It takes the whole answer of the reader, since it says what a row of a refused one is too (NotesInPlace).
pub fn message_row(line: u64, origin: Origin, message: Result<Message, MessageRefusal>) -> Row
    ensures { result ≡ message_row line origin message }
{
    Row {
        message: word_of(message),
        ..bare_row(Word::Message, Field::Decimal(line), origin)
    }
}

// A refusal, by document 01's number.
// Stays a number: refusals of the station and of the reader of messages both come here (NotesInPlace).
pub fn refused_row(line: u64, origin: Origin, refusal: u8) -> Row
    ensures { result ≡ refused_row line origin refusal }
{
    Row {
        refusal: Field::Decimal(refusal as u64),
        ..bare_row(Word::Refused, Field::Decimal(line), origin)
    }
}

// What is said of a socket after the last line.
pub fn socket_row(what: Word, socket: Socket) -> Row
    ensures { result ≡ socket_row what socket }
{
    let origin = Origin {
        socket: Field::Decimal(socket.0 as u64),
        ..Origin::default()
    };
    bare_row(what, Field::Empty, origin)
}

// The last row: how many lines there were.
pub fn end_row(lines: u64) -> Row
    ensures { result ≡ end_row lines }
{
    bare_row(Word::End, Field::Decimal(lines), Origin::default())
}
