// Lists of octets: big-endian numbers, how long a message may be, and the answer of a writer.
#![tactic(auto)]

ghost use Rattle.std.specs.Prelude.{◌≡◌, ◌<◌, get_or};
ghost use Rattle.octets.specs.Numbers.{big16, big32, octets32};
ghost use Rattle.octets.specs.Lengths.{is_length};

// Refusal 11: an argument is wrong.
#[derive(Clone, Copy, Debug, PartialEq, Eq)]
pub struct WrongArgument;

// The answer of a writer to a lent output: how many octets stand at its start, or that an argument is wrong or the output too short; the output is
// then as it was.
pub type Written = Result<usize, WrongArgument>;

// The octets of the longest message, over PB-ADV and over a proxy.
pub const LONGEST_MESSAGE: usize = 1469;

// Whether a message may have so many octets.
pub fn is_length(count: usize) -> bool
    ensures { result ≡ is_length count }
{
    1 <= count && count <= LONGEST_MESSAGE
}

// The octet at a place; 0 past the end.
pub fn octet_at(octets: &[u8], at: usize) -> u8
    ensures { result ≡ get_or octets.now at 0 }
{
    if at < octets.len() { octets[at] } else { 0 }
}

fn wide16(octet: u8) -> u16
    ensures { (result ≡ octet) × (result < 256) }
{
    octet as u16
}

// The number in the two octets from a place on; octets past the end count as 0, so that there are no two to hand to `from_be_bytes`.
pub fn read16(octets: &[u8], at: usize) -> u16
    ensures { result ≡ big16 octets.now at }
{
    if at < octets.len() {
        wide16(octets[at]) * 256 + wide16(octet_at(octets, at + 1))
    } else {
        0
    }
}

// The number in the four octets from a place on; octets past the end count as 0.
pub fn read32(octets: &[u8], at: usize) -> u32
    ensures { result ≡ big32 octets.now at }
{
    if at < octets.len() {
        (read16(octets, at) as u32) * 65536 + (read16(octets, at + 2) as u32)
    } else {
        0
    }
}

// A number in four octets.
pub fn four_octets(value: u32) -> [u8; 4]
    ensures { result ≡ octets32 value }
{
    value.to_be_bytes()
}
