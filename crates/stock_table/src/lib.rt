// The stock table: a header and rows of the same fifteen columns, each a line at the start of a lent output.
#![tactic(auto)]

mod rows;
mod writing;

use line_fields::{Field, Word};
use provisioning::Capabilities;
pub use rows::{end_row, message_row, record_row, refused_row, socket_row};
pub use writing::{write_header, write_row};

// Where a row comes from: its columns socket, link_id and number.
#[derive(Clone, Copy, Default)]
pub struct Origin {
    pub socket: Field,
    pub id: Field,
    pub number: Field,
}

// A row of the table.
#[derive(Clone, Copy)]
pub struct Row {
    pub what: Word,
    pub line: Field,
    pub origin: Origin,
    pub refusal: Field,
    pub message: Field,
    // The eight fields of a Capabilities message.
    pub stated: Option<Capabilities>,
}
