// What is written where a line is refused.
ghost use Rattle.std.specs.Prelude.{true, ◌≡◌, ◌≤◌, length};
ghost use Rattle.octets.specs.Writing.{written, output_after};
ghost use Rattle.rehearsal_lines.specs.Lines.{refused_line};

use line_fields::{decimal_text, write_text};
use octets::Written;

// No such line is longer: ten characters, a number of at most 20, and a newline.
const MOST_REFUSED: usize = 31;

// `# refused` and the number of a line, which the readers of a log pass over.
pub fn write_refused(line: u64, output: &mut [u8]) -> Written
    ensures { (result ≡ written true (refused_line line) output.old)
        × (output.new ≡ output_after true (refused_line line) output.old)
        × (length (refused_line line) ≤ 31) }
{
    let digits = decimal_text(line);
    let characters = digits.text;
    let count = digits.length;
    let mut text = [0u8; MOST_REFUSED];
    octet_parts::copy(&mut text, 0, b"# refused ", 0, 10);
    octet_parts::copy(&mut text, 10, &characters, 0, count);
    text[10 + count] = b'\n';
    write_text(&text[..11 + count], output)
}
