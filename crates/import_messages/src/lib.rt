// What becomes of a message that was delivered: a record, one after it, a message of another kind, or a refusal by the reader.
#![tactic(auto)]

ghost use Rattle.std.specs.Prelude.{◌≡◌};
ghost use Rattle.import_messages.specs.Messages.{further_word, capabilities_step, message_step};

use import_tray::{Step, Stock, Tray, refuse};
use line_fields::Word;
use provisioning::{Capabilities, Message, MessageRefusal};
use stock_table::Origin;

// What a further Capabilities message is after the record.
fn further_word(first: Capabilities, capabilities: Capabilities) -> Word
    ensures { result ≡ further_word first capabilities }
{
    if first == capabilities {
        Word::Repeated
    } else {
        Word::Conflict
    }
}

// The first Capabilities message since the opening is the record of its socket.
fn take_capabilities(
    tray: Tray,
    place: usize,
    line: u64,
    origin: Origin,
    capabilities: Capabilities,
) -> Step
    ensures { result ≡ capabilities_step tray place line origin capabilities }
{
    if let Stock::Recorded(first) = import_tray::stock_at(tray, place) {
        let what = further_word(first, capabilities);
        return Step {
            tray,
            report: Some(stock_table::record_row(what, line, origin, capabilities)),
        };
    }
    Step {
        tray: import_tray::with_stock(tray, place, Stock::Recorded(capabilities)),
        report: Some(stock_table::record_row(Word::Record, line, origin, capabilities)),
    }
}

// What the reader says of the octets that the line of that number delivered at a place.
pub fn take_message(
    tray: Tray,
    place: usize,
    line: u64,
    origin: Origin,
    message: Result<Message, MessageRefusal>,
) -> Step
    ensures { result ≡ message_step tray place line origin message }
{
    match message {
        Ok(Message::Capabilities(capabilities)) => {
            take_capabilities(tray, place, line, origin, capabilities)
        }
        Ok(_) => Step {
            tray,
            report: Some(stock_table::message_row(line, origin, message)),
        },
        Err(refusal) => refuse(tray, line, origin, refusal_numbers::of_message(refusal)),
    }
}
