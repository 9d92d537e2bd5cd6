// The writers of a transaction's frames: segments and acknowledgements; the cut of a message into frames.
#![tactic(auto)]

ghost use Rattle.std.specs.Prelude.{◌≡◌, true, ◌≤◌, length};
ghost use Rattle.octets.specs.Writing.{written, output_after};
ghost use Rattle.pb_adv.specs.Frame.{acknowledgement_octets};
ghost use Rattle.pb_adv_writing.specs.Writing.{is_segment, segment_frame, SegmentAsked};

use frame_writing::write_frame;
use octets::{Written, WrongArgument};
use transactions::{TransactionNumber, last_segment, segment_length, segment_place};

// Writes an acknowledgement of a transaction number.
pub fn write_acknowledgement(id: u32, number: TransactionNumber, output: &mut [u8]) -> Written
    ensures { (result ≡ written true (acknowledgement_octets id number) output.old)
        × (output.new ≡ output_after true (acknowledgement_octets id number) output.old) }
{
    write_frame(output, id, number, 1, b"", b"")
}

fn put_start(id: u32, number: TransactionNumber, message: &[u8], output: &mut [u8]) -> Written
    requires { SegmentAsked message.now 0 }
    ensures { (result ≡ written true (segment_frame id number message.now 0) output.old)
        × (output.new ≡ output_after true (segment_frame id number message.now 0) output.old) }
{
    let length = message.len() as u16;
    let count = segment_length(length, 0);
    let check = fcs::check_octet(message);
    let kind = (4 * last_segment(length)) as u8;
    // By hand and not by `to_be_bytes`: of a pattern over its octets the check knows no values.
    let fields = [(length / 256) as u8, (length % 256) as u8, check];
    write_frame(output, id, number, kind, &fields, &message[..count])
}

fn put_continuation(
    id: u32,
    number: TransactionNumber,
    message: &[u8],
    index: u16,
    output: &mut [u8],
) -> Written
    requires { (1 ≤ index) × SegmentAsked message.now index }
    ensures { (result ≡ written true (segment_frame id number message.now index) output.old)
        × (output.new ≡ output_after true (segment_frame id number message.now index) output.old) }
{
    let from = segment_place(index);
    let to = from + segment_length(message.len() as u16, index);
    let kind = (4 * index + 2) as u8;
    write_frame(output, id, number, kind, b"", &message[from..to])
}

// Writes the frame of one segment of a message.
pub fn write_segment(
    id: u32,
    number: TransactionNumber,
    message: &[u8],
    index: usize,
    output: &mut [u8],
) -> Written
    ensures { (result ≡ written (is_segment message.now index) (segment_frame id number message.now index) output.old)
        × (output.new ≡ output_after (is_segment message.now index) (segment_frame id number message.now index) output.old) }
{
    if !octets::is_length(message.len()) || (last_segment(message.len() as u16) as usize) < index {
        return Err(WrongArgument);
    }
    if index == 0 {
        return put_start(id, number, message, output);
    }
    put_continuation(id, number, message, index as u16, output)
}
