// Proxy transfer, writing: a message cut into pieces of the proxy size.
#![tactic(auto)]

ghost use Rattle.std.specs.Prelude.{◌≡◌, true, length};
ghost use Rattle.octets.specs.Writing.{written, output_after};
ghost use Rattle.proxy.specs.Pieces.{is_cut, last_piece, first_octet, piece_octets, pieces_counted, is_piece, CutAsked, PieceAsked};

use octets::{Written, WrongArgument};

// Whether a message of a length is cut by a size.
#[tactic(auto, using(octets::proofs::Tests::tests))]
fn is_cut(size: usize, length: usize) -> bool
    ensures { result ≡ is_cut size length }
{
    (20..=514).contains(&size) && octets::is_length(length)
}

fn last_piece(size: usize, length: usize) -> usize
    requires { CutAsked size length }
    ensures { result ≡ last_piece size length }
{
    (length - 1) / (size - 1)
}

// The number of pieces in which a message of a length goes.
#[tactic(auto, unfolding(proxy::specs::Pieces::pieces_counted))]
pub fn count_pieces(size: usize, length: usize) -> Result<usize, WrongArgument>
    ensures { result ≡ pieces_counted size length }
{
    if !is_cut(size, length) {
        return Err(WrongArgument);
    }
    Ok(last_piece(size, length) + 1)
}

#[tactic(auto, using(octets::proofs::Tests::tests), unfolding(proxy::specs::Pieces::top_bits))]
fn first_octet(size: usize, kind: u8, length: usize, index: usize) -> u8
    requires { PieceAsked size kind length index }
    ensures { result ≡ first_octet size kind length index }
{
    if length < size {
        kind
    } else if index == 0 {
        64 + kind
    } else if index == last_piece(size, length) {
        192 + kind
    } else {
        128 + kind
    }
}

fn put_piece(size: usize, kind: u8, message: &[u8], index: usize, output: &mut [u8]) -> Written
    requires { PieceAsked size kind (length message.now) index }
    ensures { (result ≡ written true (piece_octets size kind message.now index) output.old)
        × (output.new ≡ output_after true (piece_octets size kind message.now index) output.old) }
{
    let from = (size - 1) * index;
    let count = (size - 1).min(message.len() - from);
    if output.len() <= count {
        return Err(WrongArgument);
    }
    output[0] = first_octet(size, kind, message.len(), index);
    octet_parts::copy(output, 1, message, from, count);
    Ok(1 + count)
}

// Writes one piece of a message, numbered from 0.
// The type stays a number: one over 3 is refused with 11 (is_piece).
pub fn write_piece(
    size: usize,
    kind: u8,
    message: &[u8],
    index: usize,
    output: &mut [u8],
) -> Written
    ensures { (result ≡ written (is_piece size kind message.now index) (piece_octets size kind message.now index) output.old)
        × (output.new ≡ output_after (is_piece size kind message.now index) (piece_octets size kind message.now index) output.old) }
{
    if !is_cut(size, message.len()) || 3 < kind || last_piece(size, message.len()) < index {
        return Err(WrongArgument);
    }
    put_piece(size, kind, message, index, output)
}
