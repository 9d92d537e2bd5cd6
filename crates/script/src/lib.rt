// The text of the replay program's language (docs/REPLAY.md): the arguments of a line, the line of an answer, and the hash of octets.
// All numbers have an even count of digits, so arguments and answers are octets, written in hexadecimal.
#![tactic(auto)]

ghost use Rattle.std.specs.Prelude.{◌≡◌, true, [], ◌∷◌, ◌+◌, ◌/◌, ◌%◌, ◌≤◌, length, take};
ghost use Rattle.octets.specs.Writing.{written, output_after};
ghost use Rattle.hexadecimal.specs.Hex.{digit_line};
ghost use Rattle.script.specs.Script.{capitals, is_line, arguments_read, arguments_after, outcome_line, hash_step, hash_from};

use hexadecimal::DecodeError;
use octets::Written;

// The longest line, its newline left out.
pub const LONGEST: usize = 8192;

// A line without arguments that can be read.
#[derive(Clone, Copy, Debug, PartialEq, Eq)]
pub struct Malformed;

// What a line came to.
#[derive(Clone, Copy)]
pub enum Outcome {
    // A letter, and so many octets from the start of the values.
    Values { letter: u8, count: usize },
    Done,
    // A refusal by its number, which stays one: the crates have refusals of many enums, and a line tells them all by document 01's number.
    Refused(u8),
    Malformed,
}

fn all_capitals(text: &[u8]) -> bool
    ensures { result ≡ capitals text.now }
{
    text.iter().all(|character| *character <= b'F')
}

// A line of two letters or more and at most 8,192 characters, whose digits are capitals.
#[tactic(auto, using(octets::proofs::Tests::tests), unfolding(crate::specs::Script::is_line))]
fn is_line(line: &[u8]) -> bool
    ensures { (result ≡ is_line line.now) × (result ≡ true → 2 ≤ length line.now) }
{
    2 <= line.len() && line.len() <= LONGEST && all_capitals(&line[2..])
}

// A text that is not read makes a line that is malformed.
impl From<DecodeError> for Malformed {
    ghost from_gives = { λ _ e. e ≡ record {} };

    fn from(_error: DecodeError) -> Malformed {
        Malformed
    }
}

// The octets that a line has behind the two letters of its operation: so many now stand at the start of the output, which is as it was where they are
// refused.
#[tactic(auto, using(octets::proofs::Tests::tests), unfolding(crate::specs::Script::arguments_read, crate::specs::Script::arguments_after))]
pub fn read_arguments(line: &[u8], output: &mut [u8]) -> Result<usize, Malformed>
    ensures { (result ≡ arguments_read line.now output.old)
        × (output.new ≡ arguments_after line.now output.old) }
{
    if !is_line(line) {
        return Err(Malformed);
    }
    let count = hexadecimal::decode(&line[2..], output)?;
    Ok(count)
}

// A letter, and so many octets from the start of the values.
fn write_values(letter: u8, values: &[u8], count: usize, output: &mut [u8]) -> Written
    ensures { (result ≡ written true (digit_line (letter ∷ []) (take count values.now)) output.old)
        × (output.new ≡ output_after true (digit_line (letter ∷ []) (take count values.now)) output.old) }
{
    if values.len() < count {
        return hexadecimal::write_line(&[letter], values, output);
    }
    hexadecimal::write_line(&[letter], &values[0..count], output)
}

// A refusal by its number.
fn write_refusal(n: u8, output: &mut [u8]) -> Written
    ensures { (result ≡ written true (digit_line (33 ∷ (48 + n / 10 % 10) ∷ (48 + n % 10) ∷ []) []) output.old)
        × (output.new ≡ output_after true (digit_line (33 ∷ (48 + n / 10 % 10) ∷ (48 + n % 10) ∷ []) []) output.old) }
{
    hexadecimal::write_line(&[b'!', 48 + n / 10 % 10, 48 + n % 10], b"", output)
}

// The line of an answer.
pub fn write_outcome(outcome: Outcome, values: &[u8], output: &mut [u8]) -> Written
    ensures { (result ≡ written true (outcome_line outcome values.now) output.old)
        × (output.new ≡ output_after true (outcome_line outcome values.now) output.old) }
{
    match outcome {
        Outcome::Values { letter, count } => write_values(letter, values, count, output),
        Outcome::Done => hexadecimal::write_line(b"OK", b"", output),
        Outcome::Refused(n) => write_refusal(n, output),
        Outcome::Malformed => hexadecimal::write_line(b"?", b"", output),
    }
}

fn hash_step(hash: u32, octet: u8) -> u32
    ensures { result ≡ hash_step hash octet }
{
    (((hash as u64) * 257 + (octet as u64)) % 4294967291) as u32
}

// The hash of octets more.
pub fn hash(before: u32, octets: &[u8]) -> u32
    ensures { result ≡ hash_from before octets.now }
{
    octets.iter().fold(before, |h, octet| hash_step(h, *octet))
}
