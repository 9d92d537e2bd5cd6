// The operations, and how many octets of arguments each has, as docs/REPLAY.md lists them.
use octets::{octet_at, read16};

fn fits_storage(second: u8, count: usize) -> bool {
    matches!(
        (second, count),
        (b'F', 1) | (b'W', 2..) | (b'D', 4) | (b'H', 0)
    )
}

fn fits_links(second: u8, count: usize) -> bool {
    matches!((second, count), (b'S', 23) | (b'D', 1) | (b'A', 0))
}

fn fits_session(second: u8, count: usize) -> bool {
    matches!(
        (second, count),
        (b'S', 22) | (b'D', 0) | (b'U', ..=0x20) | (b'R', 2..) | (b'N', 2) | (b'C', 0)
    )
}

fn fits_transfer(second: u8, count: usize) -> bool {
    matches!(
        (second, count),
        (b'S', 5) | (b'D', 0) | (b'C', 0) | (b'X', 0) | (b'R', 2..) | (b'N', 4) | (b'W', 6..)
    )
}

fn fits_filter(second: u8, count: usize) -> bool {
    matches!(
        (second, count),
        (b'S', 34) | (b'D', 0) | (b'N', 0) | (b'M', _) | (b'L', 2) | (b'P', 2)
    )
}

fn fits_security(second: u8, count: usize) -> bool {
    matches!(
        (second, count),
        (b'S', 6) | (b'D', 0) | (b'I', 0) | (b'T', 1)
    )
}

fn fits_view(second: u8, count: usize) -> bool {
    matches!(
        (second, count),
        (b'S', 2..) | (b'D', 0) | (b'B', 0) | (b'W', 0) | (b'F', 2)
    )
}

fn fits_writer(second: u8, count: usize) -> bool {
    matches!(
        (second, count),
        (b'S', 8..) | (b'K', 7) | (b'O', 6..) | (b'A', 6) | (b'C', 7)
    )
}

// Whether two letters name an operation that has so many octets of arguments.
fn fits(first: u8, second: u8, count: usize) -> bool {
    match first {
        b'A' | b'E' => fits_storage(second, count),
        b'B' => fits_storage(second, count) || matches!((second, count), (b'R', 3..)),
        b'C' => matches!((second, count), (b'K', _) | (b'L', 1)),
        b'D' => fits_session(second, count),
        b'F' => fits_filter(second, count),
        b'K' => fits_security(second, count),
        b'L' => fits_links(second, count),
        b'O' => fits_storage(second, count) || matches!((second, count), (b'P', 5)),
        b'P' => second == b'R',
        b'R' => matches!((second, count), (b'F', 2..)),
        b'S' => matches!((second, count), (b'G', 2) | (b'N', 3)),
        b'V' => fits_view(second, count),
        b'W' => fits_writer(second, count),
        b'X' => fits_transfer(second, count),
        b'Z' => matches!((second, count), (b'Z' | b'H', 0)),
        _ => false,
    }
}

fn is_flag(x: &[u8], at: usize) -> bool {
    octet_at(x, at) <= 1
}

// Whether the use and the flags of a record are in their ranges.
fn is_record(x: &[u8]) -> bool {
    octet_at(x, 0) <= 2 && is_flag(x, 6) && is_flag(x, 7) && is_flag(x, 9)
}

// Whether the uses and flags of a state that is set are in their ranges.
fn is_state(first: u8, x: &[u8]) -> bool {
    match first {
        b'L' => is_record(behind(x, 1)),
        b'D' => is_record(x),
        b'X' => is_flag(x, 0) && is_flag(x, 1),
        b'F' => is_flag(x, 0),
        b'K' => is_flag(x, 5),
        _ => true,
    }
}

// Whether the arguments of an operation are in their ranges; a socket, a place and a lent count are looked at where they are used.
fn in_range(first: u8, second: u8, x: &[u8]) -> bool {
    match second {
        b'S' => is_state(first, x),
        b'R' => first != b'B' || (is_flag(x, 0) && is_flag(x, 1) && is_flag(x, 2)),
        b'F' => first != b'V' || read16(x, 0) != 0,
        _ => true,
    }
}

// Whether a line of two letters and octets is well-formed.
pub(super) fn is_operation(first: u8, second: u8, x: &[u8]) -> bool {
    fits(first, second, x.len()) && in_range(first, second, x)
}

// The octets behind the first so many.
pub(super) fn behind(x: &[u8], count: usize) -> &[u8] {
    if x.len() < count { x } else { &x[count..] }
}
