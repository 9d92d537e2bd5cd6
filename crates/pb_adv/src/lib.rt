// PB-ADV frames: what octets say as a frame.
#![tactic(auto)]

ghost use Rattle.std.specs.Prelude.{◌≡◌};
ghost use Rattle.pb_adv.specs.Frame.{id_of};

mod parsing;

pub use parsing::parse;
use transactions::TransactionNumber;

// What stands before the octets of a segment.
#[derive(Clone, Copy)]
pub enum SegmentHeader {
    // Segment 0, with the message's length L and check octet.
    Start { length: u16, check: u8 },
    // Segment 1 and on, with its number.
    Continuation { index: u8 },
}

// A segment of a message; its octets stand in the frame, count of them from a place on.
#[derive(Clone, Copy)]
pub struct Segment {
    pub id: u32,
    pub number: TransactionNumber,
    pub header: SegmentHeader,
    pub from: usize,
    pub count: usize,
}

// What octets say as a frame. id is the Link ID.
#[derive(Clone, Copy)]
pub enum Frame {
    Segment(Segment),
    Acknowledgement { id: u32, number: TransactionNumber },
    // The 16 octets of the UUID stand in the frame from place uuid on.
    Open { id: u32, uuid: usize },
    Ack { id: u32 },
    Close { id: u32, reason: u8 },
}

impl Frame {
    // Its Link ID.
    pub fn id(self) -> u32
        ensures { result ≡ id_of self }
    {
        match self {
            Frame::Segment(segment) => segment.id,
            Frame::Acknowledgement { id, number: _ } => id,
            Frame::Open { id, uuid: _ } => id,
            Frame::Ack { id } => id,
            Frame::Close { id, reason: _ } => id,
        }
    }
}

// Why octets are no frame.
#[derive(Clone, Copy, Debug, PartialEq, Eq)]
pub enum FrameRefusal {
    // Refusal 1: not 6 to 29 octets, or a body that does not fit its kind.
    Malformed,
    // Refusal 2: a control opcode from 3 to 63.
    UnknownOpcode,
}
