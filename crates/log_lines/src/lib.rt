// The lines of a tray's log: opening lines read, and lines of each kind written.
#![tactic(auto)]

mod openings;
mod writing;

pub use openings::read_opening;
use transactions::Socket;
pub use writing::{write_heard, write_opening, write_sent};

// What an opening line says.
#[derive(Clone, Copy)]
pub struct Opening {
    pub socket: Socket,
    pub id: u32,
}

// No line that is written is longer: the mark of a sent frame, the 58 digits of the longest frame, and a newline.
pub const MOST: usize = 60;
