// Hexadecimal digits to octets and back, and lines of them.
#![tactic(auto)]

ghost use Rattle.std.specs.Prelude.{◌≡◌, true, ◌+◌, ◌*◌, ◌/◌, ◌%◌, ◌≤◌, ◌<◌, leb, length};
ghost use Rattle.octets.specs.Parts.{write, within};
ghost use Rattle.octets.specs.Writing.{written, output_after};
ghost use Rattle.hexadecimal.specs.Hex.{value_of, digit_of, all_digits, octets_of, text_of, decoded_of, decoded_output, encoded_output, digit_line};

use octets::{Written, WrongArgument};

// Why a text was not read.
#[derive(Clone, Copy, Debug, PartialEq, Eq)]
pub enum DecodeError {
    // An odd number of characters, or one that is no digit.
    NotHexadecimal,
    // More octets than the output holds.
    TooLong,
}

// The value of a digit, of either case; 16 for any other character, and no Option: the promise Digits tells of 16.
#[tactic(auto, using(octets::proofs::Tests::tests), unfolding(crate::specs::Hex::value_of))]
pub fn value(character: u8) -> u8
    ensures { result ≡ value_of character }
{
    match character {
        b'0'..=b'9' => character - b'0',
        b'A'..=b'F' => character - b'A' + 10,
        b'a'..=b'f' => character - b'a' + 10,
        _ => 16,
    }
}

// By std's test, and not by `value(character) <= 15`: of that the compiler makes a tree of comparisons, and a line takes up to 1.6 times as long.
#[tactic(auto, using(octets::proofs::Tests::tests), unfolding(crate::specs::Hex::value_of))]
fn is_digit(character: u8) -> bool
    ensures { result ≡ leb (value_of character) 15 }
{
    character.is_ascii_hexdigit()
}

fn all_digits(text: &[u8]) -> bool
    ensures { result ≡ all_digits text.now }
{
    text.iter().all(|character| is_digit(*character))
}

// Two digits fit an octet; the 16 of another character would not.
fn octet_of(high: u8, low: u8) -> u8
    requires { (value_of high ≤ 15) × (value_of low ≤ 15) }
    ensures { result ≡ value_of high * 16 + value_of low }
{
    value(high) * 16 + value(low)
}

fn write_octets(text: &[u8], output: &mut [u8])
    requires { (all_digits text.now ≡ true) × (length text.now / 2 ≤ length output.old) }
    ensures { output.new ≡ write output.old 0 (octets_of text.now) }
{
    for j in 0..text.len() / 2 {
        output[j] = octet_of(text[2 * j], text[2 * j + 1]);
    }
}

// Reads digits, two an octet, into the start of the output, and gives the number of octets. Where it refuses, the output is as it was.
#[tactic(auto, using(octets::proofs::Tests::tests), unfolding(crate::specs::Hex::decoded_of, crate::specs::Hex::decoded_output))]
pub fn decode(text: &[u8], output: &mut [u8]) -> Result<usize, DecodeError>
    ensures { (result ≡ decoded_of text.now output.old)
        × (output.new ≡ decoded_output text.now output.old) }
{
    if text.len() % 2 != 0 || !all_digits(text) {
        return Err(DecodeError::NotHexadecimal);
    }
    if output.len() < text.len() / 2 {
        return Err(DecodeError::TooLong);
    }
    write_octets(text, output);
    Ok(text.len() / 2)
}

fn digit(half: u8) -> u8
    requires { half < 16 }
    ensures { result ≡ digit_of half }
{
    if half <= 9 { 48 + half } else { 55 + half }
}

fn write_text(octets: &[u8], output: &mut [u8], at: usize)
    requires { at + 2 * length octets.now ≤ length output.old }
    ensures { output.new ≡ write output.old at (text_of octets.now) }
{
    for (j, octet) in octets.iter().enumerate() {
        output[at + 2 * j] = digit(octet / 16);
        output[at + 2 * j + 1] = digit(octet % 16);
    }
}

// Writes the digits of octets, in capitals, at a place of the output; false, and nothing written, where they do not fit.
pub fn encode(octets: &[u8], output: &mut [u8], at: usize) -> bool
    ensures { (result ≡ within output.old at (2 * length octets.now))
        × (output.new ≡ encoded_output octets.now output.old at) }
{
    if output.len() < at {
        return false;
    }
    // Half the room against the count: twice the count might not fit its type.
    if (output.len() - at) / 2 < octets.len() {
        return false;
    }
    write_text(octets, output, at);
    true
}

// Writes a line at the start of the output: its first characters, the digits of octets in capitals, and a newline.
pub fn write_line(head: &[u8], octets: &[u8], output: &mut [u8]) -> Written
    ensures { (result ≡ written true (digit_line head.now octets.now) output.old)
        × (output.new ≡ output_after true (digit_line head.now octets.now) output.old) }
{
    if output.len() < head.len() {
        return Err(WrongArgument);
    }
    let room = output.len() - head.len();
    if room < 1 || (room - 1) / 2 < octets.len() {
        return Err(WrongArgument);
    }
    let end = head.len() + 2 * octets.len();
    octet_parts::copy(output, 0, head, 0, head.len());
    encode(octets, output, head.len());
    output[end] = b'\n';
    Ok(end + 1)
}
