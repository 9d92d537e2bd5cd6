// Tests of single fields of a link record: marks, numbers, states.
#![tactic(auto)]

ghost use Rattle.std.specs.Prelude.{◌≡◌, cond, leb};
ghost use Rattle.links.specs.Marks.{is_marked, with_mark, all_marked, none_above};
ghost use Rattle.links.specs.Links.{sends, first_number, is_last, in_use};
ghost use Rattle.links.specs.Station.{is_open};

use links::{LinkState, Side};
use transactions::TransactionNumber;

// Whether segment k is in.
pub fn is_marked(marks: u64, k: usize) -> bool
    ensures { result ≡ is_marked marks k }
{
    k < 64 && (marks >> k) % 2 == 1
}

// The marks with segment k in too; as they were above segment 63, which no message has.
pub fn with_mark(marks: u64, k: usize) -> u64
    ensures { result ≡ cond (leb k 63) (with_mark marks k) marks }
{
    if k <= 63 { marks | (1u64 << k) } else { marks }
}

// Whether each of segments 0 to n is in.
pub fn all_marked(n: usize, marks: u64) -> bool
    ensures { result ≡ all_marked n marks }
{
    if n < 63 {
        let ones = (1u64 << (n + 1)) - 1;
        return marks & ones == ones;
    }
    if n == 63 {
        return marks == 0xFFFF_FFFF_FFFF_FFFF;
    }
    false
}

// Whether none above segment n is in.
pub fn none_above(n: usize, marks: u64) -> bool
    ensures { result ≡ none_above n marks }
{
    n >= 63 || marks >> (n + 1) == 0
}

// Whether an end sends a number.
pub fn is_sent_by(side: Side, number: TransactionNumber) -> bool
    ensures { result ≡ sends side number }
{
    match side {
        Side::Provisioner => number.0 / 128 == 0,
        Side::Device => number.0 / 128 == 1,
    }
}

// The number that an end sends first.
pub fn first_number(side: Side) -> TransactionNumber
    ensures { result ≡ first_number side }
{
    match side {
        Side::Provisioner => TransactionNumber(0x00),
        Side::Device => TransactionNumber(0x80),
    }
}

// Whether a number is the last delivered.
pub fn is_last(last: Option<TransactionNumber>, number: TransactionNumber) -> bool
    ensures { result ≡ is_last last number }
{
    last == Some(number)
}

// Whether a record is opening or open.
pub fn is_in_use(state: LinkState) -> bool
    ensures { result ≡ in_use state }
{
    matches!(state, LinkState::Opening | LinkState::Open)
}

// Whether a record is open.
pub fn is_open(state: LinkState) -> bool
    ensures { result ≡ is_open state }
{
    state == LinkState::Open
}
