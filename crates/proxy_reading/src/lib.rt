// Proxy transfer, reading: pieces put together again in a lent buffer.
#![tactic(auto)]

ghost use Rattle.std.specs.Prelude.{◌≡◌, ◌≤◌, ◌/◌, length};
ghost use Rattle.proxy.specs.Transfers.{held_length, is_expected, is_like_first, refusing, disconnecting, complete, added, joining, offered, piece_read, buffer_after};
ghost use Rattle.proxy_reading.specs.Places.{top_bits};

use octets::{LONGEST_MESSAGE, octet_at};
use proxy::{HalfTransfer, PieceAnswer, PieceRead, PieceRefusal, Transfer};
use proxy_connection::{is_good, new_transfer};

// Where a piece stands in its message: the top two bits of its first octet.
#[derive(Clone, Copy)]
enum Place {
    Whole,
    First,
    Middle,
    Last,
}

fn place_of(first: u8) -> Place
    ensures { top_bits result ≡ first / 64 }
{
    match first / 64 {
        0 => Place::Whole,
        1 => Place::First,
        2 => Place::Middle,
        _ => Place::Last,
    }
}

fn refuse(transfer: Transfer, refusal: PieceRefusal) -> PieceRead
    ensures { result ≡ refusing transfer refusal }
{
    PieceRead {
        transfer,
        answer: Err(refusal),
    }
}

fn held_length(half: Option<HalfTransfer>) -> usize
    ensures { (result ≡ held_length half) × (result ≤ 65535) }
{
    half.map_or(0, |half| half.length as usize)
}

fn is_expected(half: Option<HalfTransfer>, place: Place) -> bool
    ensures { result ≡ is_expected half (top_bits place) }
{
    match place {
        Place::Whole | Place::First => half.is_none(),
        Place::Middle | Place::Last => half.is_some(),
    }
}

fn is_like_first(half: Option<HalfTransfer>, kind: u8) -> bool
    ensures { result ≡ is_like_first half kind }
{
    half.is_none_or(|half| half.kind == kind)
}

fn disconnect_refused(refusal: PieceRefusal) -> PieceRead
    ensures { result ≡ disconnecting refusal }
{
    refuse(new_transfer(), refusal)
}

fn finish(kind: u8, length: u16) -> PieceRead
    ensures { result ≡ complete kind length }
{
    PieceRead {
        transfer: Transfer {
            connected: true,
            half: None,
        },
        answer: Ok(PieceAnswer::Whole { kind, length }),
    }
}

#[tactic(auto, using(octets::proofs::Tests::tests), unfolding(proxy::specs::Transfers::added))]
fn add(place: Place, kind: u8, length: u16) -> PieceRead
    ensures { result ≡ added (top_bits place) kind length }
{
    match place {
        Place::Whole | Place::Last => finish(kind, length),
        Place::First | Place::Middle => PieceRead {
            transfer: Transfer {
                connected: true,
                half: Some(HalfTransfer { kind, length }),
            },
            answer: Ok(PieceAnswer::More),
        },
    }
}

// A piece with count octets of data is offered to what is held.
#[tactic(auto, using(octets::proofs::Tests::tests), unfolding(proxy::specs::Transfers::joining))]
fn join(half: Option<HalfTransfer>, place: Place, kind: u8, count: usize) -> PieceRead
    ensures { result ≡ joining half (top_bits place) kind count }
{
    if !is_expected(half, place) {
        return disconnect_refused(PieceRefusal::UnexpectedTopBits);
    }
    if !is_like_first(half, kind) {
        return disconnect_refused(PieceRefusal::OtherType);
    }
    let held = held_length(half);
    if LONGEST_MESSAGE < count || LONGEST_MESSAGE < held + count {
        return disconnect_refused(PieceRefusal::TooLong);
    }
    add(place, kind, (held + count) as u16)
}

#[tactic(auto, using(octets::proofs::Tests::tests), unfolding(proxy::specs::Transfers::offered))]
fn offer(transfer: Transfer, piece: &[u8]) -> PieceRead
    ensures { result ≡ offered transfer piece.now }
{
    if piece.len() < 2 {
        return refuse(transfer, PieceRefusal::NoData);
    }
    let first = octet_at(piece, 0);
    let kind = first % 64;
    if 3 < kind {
        return refuse(transfer, PieceRefusal::ReservedType);
    }
    join(transfer.half, place_of(first), kind, piece.len() - 1)
}

#[tactic(auto, using(octets::proofs::Tests::tests), unfolding(proxy::specs::Transfers::piece_read))]
fn judge(transfer: Transfer, room: usize, piece: &[u8]) -> PieceRead
    ensures { result ≡ piece_read transfer room piece.now }
{
    if room != LONGEST_MESSAGE {
        return refuse(transfer, PieceRefusal::WrongArgument);
    }
    if !is_good(transfer) {
        return refuse(transfer, PieceRefusal::BadState);
    }
    if !transfer.connected {
        return refuse(transfer, PieceRefusal::Disconnected);
    }
    offer(transfer, piece)
}

// Reads a piece of any length; the buffer has 1,469 octets.
pub fn read_piece(transfer: Transfer, buffer: &mut [u8], piece: &[u8]) -> PieceRead
    ensures { (result ≡ piece_read transfer (length buffer.old) piece.now)
        × (buffer.new ≡ buffer_after transfer buffer.old piece.now) }
{
    let read = judge(transfer, buffer.len(), piece);
    if read.answer.is_ok() {
        let held = held_length(transfer.half);
        octet_parts::copy(buffer, held, piece, 1, piece.len() - 1);
    }
    read
}
