// A frame of any kind, put together from its parts.
#![tactic(auto)]

ghost use Rattle.std.specs.Prelude.{◌≡◌, true, [], ◌++◌, ◌≤◌, length};
ghost use Rattle.octets.specs.Parts.{write};
ghost use Rattle.octets.specs.Writing.{written, output_after};
ghost use Rattle.pb_adv.specs.Frame.{frame_octets};

use octets::{Written, WrongArgument};
use transactions::TransactionNumber;

// Link ID, transaction number and the octet of the kind, at the start of the output.
fn put_head(output: &mut [u8], id: u32, number: TransactionNumber, kind: u8)
    requires { 6 ≤ length output.old }
    ensures { output.new ≡ write output.old 0 (frame_octets id number.0 kind []) }
{
    output[..4].copy_from_slice(&octets::four_octets(id));
    output[4] = number.0;
    output[5] = kind;
}

// Writes a frame, whose octets after the first six are given in two parts.
// The kind stays an octet, which a writer computes of a segment's number: an enum would be turned back into the octet here, and be no plainer.
pub fn write_frame(
    output: &mut [u8],
    id: u32,
    number: TransactionNumber,
    kind: u8,
    fields: &[u8],
    octets: &[u8],
) -> Written
    ensures { (result ≡ written true (frame_octets id number.0 kind (fields.now ++ octets.now)) output.old)
        × (output.new ≡ output_after true (frame_octets id number.0 kind (fields.now ++ octets.now)) output.old) }
{
    if output.len() < 6 || output.len() - 6 < fields.len() {
        return Err(WrongArgument);
    }
    let at = 6 + fields.len();
    if output.len() - at < octets.len() {
        return Err(WrongArgument);
    }
    put_head(output, id, number, kind);
    octet_parts::copy(output, 6, fields, 0, fields.len());
    octet_parts::copy(output, at, octets, 0, octets.len());
    Ok(at + octets.len())
}
