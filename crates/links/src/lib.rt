// The link records of an end and the answers of its calls. The rules over them are specs/, the promises proofs/; the code that runs
// them is in the crates link_steps, local_calls, station and device.
#![tactic(auto)]

ghost use Rattle.std.specs.Prelude.{◌≡◌};
ghost use Rattle.links.specs.Station.{frame_refusal};

use pb_adv::FrameRefusal;
use transactions::TransactionNumber;

// The end of the links that a record is of.
#[derive(Clone, Copy, PartialEq, Eq)]
pub enum Side {
    Provisioner,
    Device,
}

#[derive(Clone, Copy, PartialEq, Eq)]
pub enum LinkState {
    Free,
    Opening,
    Open,
}

// What is known of a half-received message: bit k of the marks says that segment k is in.
#[derive(Clone, Copy)]
pub struct HalfMessage {
    pub number: TransactionNumber,
    pub length: u16,
    pub check: u8,
    pub marks: u64,
}

// A link record. id is the Link ID, next the next sending number, outstanding whether it awaits its acknowledgement, last the last delivered number,
// half the half-received message.
#[derive(Clone, Copy)]
pub struct Link {
    pub state: LinkState,
    pub id: u32,
    pub next: TransactionNumber,
    pub outstanding: bool,
    pub last: Option<TransactionNumber>,
    pub half: Option<HalfMessage>,
}

// Why a call is refused, in the order of document 01's numbers, from 1; the last two are a device's.
#[derive(Clone, Copy, Debug, PartialEq, Eq)]
pub enum Refusal {
    Malformed,
    UnknownOpcode,
    UnknownLink,
    NotOpen,
    WrongDirection,
    NotBegun,
    Mismatch,
    WrongCheck,
    SocketInUse,
    LinkIdInUse,
    WrongArgument,
    NotOutstanding,
    Outstanding,
    BadState,
    OtherUuid,
    Busy,
}

// Octets that are no frame are refused as the reading of frames refuses them.
impl From<FrameRefusal> for Refusal {
    ghost from_gives = { λ refusal made. made ≡ frame_refusal refusal };

    fn from(refusal: FrameRefusal) -> Refusal {
        match refusal {
            FrameRefusal::Malformed => Refusal::Malformed,
            FrameRefusal::UnknownOpcode => Refusal::UnknownOpcode,
        }
    }
}

// The answers of the calls of either end, where they are not refused.
#[derive(Clone, Copy)]
pub enum Answer {
    AcknowledgeAgain,
    Kept,
    Repeat,
    Delivered {
        length: u16,
        number: TransactionNumber,
    },
    Opened,
    Already,
    Closed {
        reason: u8,
    },
    Acknowledged,
    // A message may be sent: its number and SegN.
    Sending {
        number: TransactionNumber,
        last: u16,
    },
    // A local Open or Close is done.
    Done,
}
