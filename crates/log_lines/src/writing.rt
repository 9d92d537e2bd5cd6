// The lines of a log, each with its newline, at the start of a lent output.
ghost use Rattle.std.specs.Prelude.{◌≡◌, ◌++◌, leb, length};
ghost use Rattle.octets.specs.Writing.{written, output_after};
ghost use Rattle.transactions.specs.Numbers.{is_socket};
ghost use Rattle.hexadecimal.specs.Hex.{digit_line};
ghost use Rattle.log_lines.specs.Lines.{opening_text, heard_text, sent_text, ended};

use octets::{Written, WrongArgument};
use transactions::Socket;

// Writes the opening of a socket, 1 to 8, with its Link ID.
pub fn write_opening(socket: Socket, id: u32, output: &mut [u8]) -> Written
    ensures { (result ≡ written (is_socket socket 8) (ended (opening_text socket id)) output.old)
        × (output.new ≡ output_after (is_socket socket 8) (ended (opening_text socket id)) output.old) }
{
    if socket.is_one_of(8) {
        let digit = 48 + socket.0;
        let octets = octets::four_octets(id);
        return hexadecimal::write_line(&[digit, b' '], &octets, output);
    }
    Err(WrongArgument)
}

// Writes a frame of one octet or more behind a mark.
fn write_frame(mark: &[u8], frame: &[u8], output: &mut [u8]) -> Written
    ensures { (result ≡ written (leb 1 (length frame.now)) (digit_line mark.now frame.now) output.old)
        × (output.new ≡ output_after (leb 1 (length frame.now)) (digit_line mark.now frame.now) output.old) }
{
    if frame.is_empty() {
        return Err(WrongArgument);
    }
    hexadecimal::write_line(mark, frame, output)
}

// Writes a frame as it was heard, of one octet or more.
pub fn write_heard(frame: &[u8], output: &mut [u8]) -> Written
    ensures { (result ≡ written (leb 1 (length frame.now)) (ended (heard_text frame.now)) output.old)
        × (output.new ≡ output_after (leb 1 (length frame.now)) (ended (heard_text frame.now)) output.old) }
{
    write_frame(b"", frame, output)
}

// Writes a frame as it was sent, of one octet or more.
pub fn write_sent(frame: &[u8], output: &mut [u8]) -> Written
    ensures { (result ≡ written (leb 1 (length frame.now)) (ended (sent_text frame.now)) output.old)
        × (output.new ≡ output_after (leb 1 (length frame.now)) (ended (sent_text frame.now)) output.old) }
{
    write_frame(b">", frame, output)
}
