// One frame of the import step, as it was heard or as the station sent it.
#![tactic(auto)]

mod heard;
mod origins;
mod sent;

ghost use Rattle.std.specs.Prelude.{◌≡◌};
ghost use Rattle.import_frames.specs.Origins.{outcome_of};

pub use heard::take_heard;
use links::{Answer, Refusal};
pub use sent::take_sent;
use transactions::{Socket, TransactionNumber};

// A message that was delivered: how long it is, and its transaction number.
// The number is read by no code and stays: `outcome_of` promises the whole of what was delivered.
#[derive(Clone, Copy)]
pub struct Delivery {
    pub length: u16,
    pub number: TransactionNumber,
}

// What a frame that the station sent asks of its records.
#[derive(Clone, Copy)]
pub enum Asked {
    // The local Send of so many octets.
    Send { socket: Socket, length: u16 },
    // The local Close.
    Close(Socket),
}

// What an answer of the station comes to: a delivery, its refusal, or nothing that is told.
pub fn outcome_of(answer: Result<Answer, Refusal>) -> Result<Option<Delivery>, Refusal>
    ensures { result ≡ outcome_of answer }
{
    match answer? {
        Answer::Delivered { length, number } => Ok(Some(Delivery { length, number })),
        _ => Ok(None),
    }
}
