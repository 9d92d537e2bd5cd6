// The writers of control frames: Open, Ack and Close. Their number is written 0.
#![tactic(auto)]

ghost use Rattle.std.specs.Prelude.{◌≡◌, true};
ghost use Rattle.octets.specs.Writing.{written, output_after};
ghost use Rattle.pb_adv.specs.Frame.{open_octets, ack_octets, close_octets, is_uuid};

use frame_writing::write_frame;
use octets::{Written, WrongArgument};
use transactions::TransactionNumber;

// Writes an Open with a device's UUID.
pub fn write_open(id: u32, uuid: &[u8], output: &mut [u8]) -> Written
    ensures { (result ≡ written (is_uuid uuid.now) (open_octets id uuid.now) output.old)
        × (output.new ≡ output_after (is_uuid uuid.now) (open_octets id uuid.now) output.old) }
{
    if uuid.len() != 16 {
        return Err(WrongArgument);
    }
    write_frame(output, id, TransactionNumber(0), 3, uuid, b"")
}

// Writes an Ack.
pub fn write_ack(id: u32, output: &mut [u8]) -> Written
    ensures { (result ≡ written true (ack_octets id) output.old)
        × (output.new ≡ output_after true (ack_octets id) output.old) }
{
    write_frame(output, id, TransactionNumber(0), 7, b"", b"")
}

// Writes a Close with its reason.
pub fn write_close(id: u32, reason: u8, output: &mut [u8]) -> Written
    ensures { (result ≡ written true (close_octets id reason) output.old)
        × (output.new ≡ output_after true (close_octets id reason) output.old) }
{
    write_frame(output, id, TransactionNumber(0), 11, &[reason], b"")
}
