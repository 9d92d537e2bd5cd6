// Proxy transfer: the transfer and the answers of its calls. The rules over them are in specs/, the promises in proofs/; the code that runs them is
// in the crates proxy_writing, proxy_connection and proxy_reading. The type of a message is called kind here, since `type` is a word of the language.
#![tactic(auto)]

// A half-received message: its type, and how many of its octets stand at the start of the buffer.
// Both stay numbers: a type over 3, and a length of 0 or over 1,469, are states that refusal 14 tells (is_bad).
#[derive(Clone, Copy)]
pub struct HalfTransfer {
    pub kind: u8,
    pub length: u16,
}

// The flag stays beside the half-received message: holding one while disconnected is a state that refusal 14 tells (is_bad).
#[derive(Clone, Copy)]
pub struct Transfer {
    pub connected: bool,
    pub half: Option<HalfTransfer>,
}

// Refusal 14: the transfer is bad.
#[derive(Clone, Copy, Debug, PartialEq, Eq)]
pub struct BadState;

// The transfer after connecting or disconnecting, and the answer.
// A record of its own, as each call's: one generic record of a state and an answer would call it by one name with all others, and be no plainer.
#[derive(Clone, Copy)]
pub struct ConnectionSet {
    pub transfer: Transfer,
    pub answer: Result<(), BadState>,
}

#[derive(Clone, Copy, Debug, PartialEq, Eq)]
pub enum PieceRefusal {
    WrongArgument,
    BadState,
    Disconnected,
    NoData,
    ReservedType,
    UnexpectedTopBits,
    OtherType,
    TooLong,
}

#[derive(Clone, Copy)]
pub enum PieceAnswer {
    More,
    // A whole message stands at the start of the buffer.
    Whole { kind: u8, length: u16 },
}

// The transfer after a piece was read, and the answer. A record of its own, as that above.
#[derive(Clone, Copy)]
pub struct PieceRead {
    pub transfer: Transfer,
    pub answer: Result<PieceAnswer, PieceRefusal>,
}
