// One line of the line program: digits in, frames as text out, the next number back.
#![tactic(auto)]

ghost use Rattle.std.specs.Prelude.{true, ◌≡◌, ◌+◌, ◌≤◌, length};
ghost use Rattle.octets.specs.Parts.{write};
ghost use Rattle.octets.specs.Writing.{written, output_after};
ghost use Rattle.transactions.specs.Numbers.{number_after};
ghost use Rattle.hex_lines.specs.Lines.{message_text, refused_text, with_next, line_written, line_output};
ghost use Rattle.hex_lines.specs.Steps.{segment_line, LineAsked};

use transactions::TransactionNumber;

// What a line wrote: the length of its text, which stands at the start of the output, and the number of the next message.
#[derive(Clone, Copy)]
pub struct LineText {
    pub length: usize,
    pub next: TransactionNumber,
}

// Refusal 11: the output is shorter than the text, and as it was. MOST octets are enough for any line.
#[derive(Clone, Copy, Debug, PartialEq, Eq)]
pub struct OutputTooShort;

// The longest text of a line: 64 frames of 1,856 octets in all, two digits an octet and a newline a frame.
pub const MOST: usize = 3776;

// The frame of one segment as a line at a place of the output; the place after it.
fn put_line(
    number: TransactionNumber,
    message: &[u8],
    index: usize,
    output: &mut [u8],
    at: usize,
) -> usize
    requires { LineAsked number message.now index output.old at }
    ensures { (result ≡ at + length (segment_line number message.now index))
        × (output.new ≡ write output.old at (segment_line number message.now index)) }
{
    let mut frame = [0u8; 29];
    let Ok(n) = pb_adv_writing::write_segment(1, number, message, index, &mut frame) else {
        // Never: there is such a segment, and no frame is longer than 29 octets.
        return at;
    };
    hexadecimal::encode(&frame[..n], output, at);
    let end = at + 2 * n;
    output[end] = b'\n';
    end + 1
}

fn put_message(
    number: TransactionNumber,
    message: &[u8],
    output: &mut [u8],
) -> Result<LineText, OutputTooShort>
    requires { (1 ≤ length message.now) × (length message.now ≤ 1469) }
    ensures { (result ≡ with_next (written true (message_text number message.now) output.old) (number_after number))
        × (output.new ≡ output_after true (message_text number message.now) output.old) }
{
    let last = transactions::last_segment(message.len() as u16) as usize;
    // The first frame has 9 octets before its segment, each other one 6.
    let length = 2 * (message.len() + 9 + 6 * last) + last + 1;
    if output.len() < length {
        return Err(OutputTooShort);
    }
    let mut at = 0;
    for index in 0..=last {
        at = put_line(number, message, index, output, at);
    }
    Ok(LineText {
        length,
        next: number.next(),
    })
}

fn put_refused(number: TransactionNumber, output: &mut [u8]) -> Result<LineText, OutputTooShort>
    ensures { (result ≡ with_next (written true refused_text output.old) number)
        × (output.new ≡ output_after true refused_text output.old) }
{
    if octet_parts::copy(output, 0, b"!11\n", 0, 4) {
        Ok(LineText {
            length: 4,
            next: number,
        })
    } else {
        Err(OutputTooShort)
    }
}

// Writes the frames of a message given in hexadecimal, or `!11` for a line that is none.
pub fn write_line(
    number: TransactionNumber,
    line: &[u8],
    output: &mut [u8],
) -> Result<LineText, OutputTooShort>
    ensures { (result ≡ line_written number line.now output.old)
        × (output.new ≡ line_output number line.now output.old) }
{
    // The longest message, so that the reader refuses a longer one.
    let mut message = [0u8; octets::LONGEST_MESSAGE];
    let Ok(n) = hexadecimal::decode(line, &mut message) else {
        return put_refused(number, output);
    };
    // An empty line is hexadecimal, and no message.
    if n == 0 {
        return put_refused(number, output);
    }
    put_message(number, &message[..n], output)
}
