// A line of text: fields with a comma between them and a newline at the end, written at the start of a lent output.
#![tactic(auto)]

ghost use Rattle.std.specs.Prelude.{true, cond, [], ◌∷◌, ◌++◌, map, ◌≡◌, ◌+◌, ◌*◌, ◌-◌, ◌≤◌, leb, length, drop};
ghost use Rattle.octets.specs.Numbers.{octets32};
ghost use Rattle.octets.specs.Parts.{part, write};
ghost use Rattle.octets.specs.Writing.{written, output_after};
ghost use Rattle.line_fields.specs.Lines.{decimal_of, hexadecimal_of, field_text, line_of, ascii, spelling, text_in, Holds, FieldAsks};

use octets::{Written, WrongArgument};

// A word: what a row of the stock table says, and the names of the messages.
#[derive(Clone, Copy)]
pub enum Word {
    Record,
    Repeated,
    Conflict,
    Message,
    Refused,
    Missing,
    Unopened,
    End,
    Invite,
    Capabilities,
    Start,
    PublicKey,
    InputComplete,
    Confirmation,
    Random,
    Data,
    Complete,
    Failed,
}

// A field of a line.
// `Empty` stays a case: a column without a value is one more text of a column, and with `Option<Field>` every other field would stand in a `Some`.
#[derive(Clone, Copy, Default)]
pub enum Field {
    // No value.
    #[default]
    Empty,
    Word(Word),
    Decimal(u64),
    // In hexadecimal, at full width.
    Octet(u8),
    Pair(u16),
    Number(u32),
}

// The text of a field, at most 20 characters: so many at the start.
// Stays an array with a length beside: `io::decimal` and `hexadecimal::encode` write octets into an array that they are lent, and an `ArrayString` takes only
// text at its end. Each field would be made in an array all the same, tested as UTF-8, and copied over.
#[derive(Clone, Copy)]
pub struct Characters {
    pub text: [u8; 20],
    pub length: usize,
}

// No line is longer: fifteen fields of at most 20 characters, and the comma or newline behind each.
pub const MOST: usize = 315;

// A text at the start of the output, or refusal 11.
pub fn write_text(text: &[u8], output: &mut [u8]) -> Written
    ensures { (result ≡ written true text.now output.old)
        × (output.new ≡ output_after true text.now output.old) }
{
    if octet_parts::copy(output, 0, text, 0, text.len()) {
        Ok(text.len())
    } else {
        Err(WrongArgument)
    }
}

// A number in decimal digits.
pub fn decimal_text(value: u64) -> Characters
    ensures { Holds result (decimal_of value) }
{
    let mut text = [0u8; 20];
    let length = io::decimal(value, &mut text);
    Characters { text, length }
}

// Octets in hexadecimal.
fn hexadecimal_text(octets: &[u8]) -> Characters
    requires { length octets.now ≤ 4 }
    ensures { Holds result (hexadecimal_of octets.now) }
{
    let mut text = [0u8; 20];
    text[0] = b'0';
    text[1] = b'x';
    hexadecimal::encode(octets, &mut text, 2);
    Characters {
        text,
        length: 2 + 2 * octets.len(),
    }
}

impl Word {
    // How it is written.
    fn text(self) -> &'static [u8]
        ensures { result.now ≡ ascii (spelling self) }
    {
        match self {
            Word::Record => b"record",
            Word::Repeated => b"repeated",
            Word::Conflict => b"conflict",
            Word::Message => b"message",
            Word::Refused => b"refused",
            Word::Missing => b"missing",
            Word::Unopened => b"unopened",
            Word::End => b"end",
            Word::Invite => b"Invite",
            Word::Capabilities => b"Capabilities",
            Word::Start => b"Start",
            Word::PublicKey => b"Public Key",
            Word::InputComplete => b"Input Complete",
            Word::Confirmation => b"Confirmation",
            Word::Random => b"Random",
            Word::Data => b"Data",
            Word::Complete => b"Complete",
            Word::Failed => b"Failed",
        }
    }
}

fn characters_of(text: &[u8]) -> Characters
    requires { length text.now ≤ 20 }
    ensures { Holds result text.now }
{
    let mut characters = [0u8; 20];
    characters[..text.len()].copy_from_slice(text);
    Characters {
        text: characters,
        length: text.len(),
    }
}

fn field_text(field: Field) -> Characters
    ensures { Holds result (field_text field) }
{
    match field {
        Field::Empty => Characters {
            text: [0u8; 20],
            length: 0,
        },
        Field::Word(word) => characters_of(word.text()),
        Field::Decimal(value) => decimal_text(value),
        Field::Octet(value) => hexadecimal_text(&[value]),
        Field::Pair(value) => hexadecimal_text(&value.to_be_bytes()),
        Field::Number(value) => hexadecimal_text(&value.to_be_bytes()),
    }
}

// What stands behind the field at a place of fifteen.
fn end_of(index: usize) -> u8
    requires { index + 1 ≤ 15 }
    ensures { result ≡ cond (leb 15 (index + 1)) 10 44 }
{
    if 15 <= index + 1 { b'\n' } else { b',' }
}

// A text and what stands behind it, at a place of a line; the place after it.
fn put_ended(line: &mut [u8], at: usize, characters: Characters, end: u8) -> usize
    requires { FieldAsks line.old at × (characters.length ≤ 20) }
    ensures { (result ≡ at + characters.length + 1)
        × (line.new ≡ write line.old at (text_in characters ++ (end ∷ []))) }
{
    let behind = at + characters.length;
    line[at..behind].copy_from_slice(&characters.text[..characters.length]);
    line[behind] = end;
    behind + 1
}

// The line of fifteen fields.
pub fn write_fields(fields: [Field; 15], output: &mut [u8]) -> Written
    ensures { (result ≡ written true (line_of (map field_text fields)) output.old)
        × (output.new ≡ output_after true (line_of (map field_text fields)) output.old)
        × (length (line_of (map field_text fields)) ≤ 315) }
{
    let mut line = [0u8; MOST];
    let mut at = 0;
    for (i, field) in fields.iter().enumerate() {
        at = put_ended(&mut line, at, field_text(*field), end_of(i));
    }
    write_text(&line[..at], output)
}
