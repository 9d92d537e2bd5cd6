// Transactions: their numbers, and where the segments of a message stand; and the sockets, a count of their own.
#![tactic(auto)]

mod numbers;
mod segments;

pub use segments::{last_segment, segment_length, segment_place};

// A transaction number: 0x00 to 0x7F from the provisioner, 0x80 to 0xFF from the device.
#[derive(Clone, Copy, PartialEq, Eq)]
pub struct TransactionNumber(pub u8);

// A socket of the station, counted from 1. Never a transaction number.
#[derive(Clone, Copy, PartialEq, Eq)]
pub struct Socket(pub u8);
