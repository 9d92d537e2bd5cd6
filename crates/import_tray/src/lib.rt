// The tray of the import step: its link records, and what the table has of each socket.
#![tactic(auto)]

ghost use Rattle.std.specs.Prelude.{◌≡◌};
ghost use Rattle.import_tray.specs.Trays.{new_tray, stock_at, with_links, with_stock, row_after, last_report};
ghost use Rattle.stock_table.specs.Rows.{refused_row};

use line_fields::Word;
use links::Link;
use provisioning::Capabilities;
use stock_table::{Origin, Row};
use transactions::Socket;

// What the table has of a socket: it was never opened, it has no record since its latest opening, or that record.
#[derive(Clone, Copy)]
pub enum Stock {
    Unopened,
    Missing,
    Recorded(Capabilities),
}

// The link records of a tray, and what the table has of each socket. Two arrays: the station's calls take the eight records by themselves (document 01, "Each
// place and its form").
#[derive(Clone, Copy)]
pub struct Tray {
    pub links: [Link; 8],
    pub stock: [Stock; 8],
}

// The tray after a line, and the row that the line writes, if any.
#[derive(Clone, Copy)]
pub struct Step {
    pub tray: Tray,
    pub report: Option<Row>,
}

// The tray at the start: eight free sockets, never opened.
pub fn new_tray() -> Tray
    ensures { result ≡ new_tray }
{
    Tray {
        links: link_records::blank_links(),
        stock: [Stock::Unopened; 8],
    }
}

// What the table has of the socket at a place; unopened if there is no such place.
pub fn stock_at(tray: Tray, place: usize) -> Stock
    ensures { result ≡ stock_at tray place }
{
    tray.stock.get(place).copied().unwrap_or(Stock::Unopened)
}

// The tray with other link records.
pub fn with_links(tray: Tray, links: [Link; 8]) -> Tray
    ensures { result ≡ with_links tray links }
{
    Tray { links, ..tray }
}

// The tray with other stock of the socket at a place.
pub fn with_stock(mut tray: Tray, place: usize, stock: Stock) -> Tray
    ensures { result ≡ with_stock tray place stock }
{
    if place < 8 {
        tray.stock[place] = stock;
    }
    tray
}

// A refusal, by document 01's number, is told; the tray stays. Stays a number: refusals of the station and of the reader of messages meet here.
pub fn refuse(tray: Tray, line: u64, origin: Origin, refusal: u8) -> Step
    ensures { result ≡ row_after tray (refused_row line origin refusal) }
{
    Step {
        tray,
        report: Some(stock_table::refused_row(line, origin, refusal)),
    }
}

// What is said of a socket after the last line: that it was never opened, or that its record is missing.
pub fn last_report(tray: Tray, socket: Socket) -> Option<Row>
    ensures { result ≡ last_report tray socket }
{
    match stock_at(tray, socket.place()) {
        Stock::Unopened => Some(stock_table::socket_row(Word::Unopened, socket)),
        Stock::Missing => Some(stock_table::socket_row(Word::Missing, socket)),
        Stock::Recorded(_) => None,
    }
}
