// The proxy transfer.
use crate::answers::{Answer, done, letter, malformed, refused, wrong_argument};
use crate::shapes::behind;
use octets::{WrongArgument, octet_at, read16};
use proxy::{BadState, ConnectionSet, HalfTransfer, PieceAnswer, PieceRefusal, Transfer};

fn half_of(x: &[u8]) -> Option<HalfTransfer> {
    if octet_at(x, 1) == 0 {
        return None;
    }
    Some(HalfTransfer {
        kind: octet_at(x, 2),
        length: read16(x, 3),
    })
}

fn set(transfer: &mut Transfer, x: &[u8]) -> Answer {
    *transfer = Transfer {
        connected: octet_at(x, 0) == 1,
        half: half_of(x),
    };
    done()
}

pub(super) fn show(transfer: Transfer) -> Answer {
    let shown = letter(b'X').flag(transfer.connected);
    match transfer.half {
        None => shown.long(0),
        Some(half) => shown.octet(1).octet(half.kind).pair(half.length),
    }
}

fn after_connecting(transfer: &mut Transfer, connected: ConnectionSet) -> Answer {
    *transfer = connected.transfer;
    match connected.answer {
        Ok(()) => done(),
        Err(BadState) => refused(refusal_numbers::of_piece(PieceRefusal::BadState)),
    }
}

fn piece_answer(answered: Result<PieceAnswer, PieceRefusal>) -> Answer {
    match answered {
        Ok(PieceAnswer::More) => letter(b'M'),
        Ok(PieceAnswer::Whole { kind, length }) => letter(b'T').octet(kind).pair(length),
        Err(refusal) => refused(refusal_numbers::of_piece(refusal)),
    }
}

// Reads a piece, with the first octets of the buffer lent.
pub(super) fn read(transfer: &mut Transfer, x: &[u8], buffer: &mut [u8]) -> Answer {
    let lent = usize::from(read16(x, 0));
    let Some(buffer) = buffer.get_mut(..lent) else {
        return malformed();
    };
    let read = proxy_reading::read_piece(*transfer, buffer, behind(x, 2));
    *transfer = read.transfer;
    piece_answer(read.answer)
}

fn count(x: &[u8]) -> Answer {
    match proxy_writing::count_pieces(usize::from(read16(x, 0)), usize::from(read16(x, 2))) {
        Ok(n) => letter(b'N').octet((n % 256) as u8),
        Err(WrongArgument) => wrong_argument(),
    }
}

// An operation by its second letter, but for the pieces read and written.
pub(super) fn perform(second: u8, transfer: &mut Transfer, x: &[u8]) -> Answer {
    match second {
        b'S' => set(transfer, x),
        b'D' => show(*transfer),
        b'C' => {
            let connected = proxy_connection::connect(*transfer);
            after_connecting(transfer, connected)
        }
        b'X' => {
            let disconnected = proxy_connection::disconnect(*transfer);
            after_connecting(transfer, disconnected)
        }
        _ => count(x),
    }
}
