// Decimal numbers.
ghost use Rattle.std.specs.Prelude.{◌≡◌};
ghost use Rattle.rehearsal_lines.specs.Lines.{is_digit, decimal_read};

#[tactic(auto, using(octets::proofs::Tests::tests), unfolding(crate::specs::Lines::is_digit))]
fn is_digit(character: u8) -> bool
    ensures { result ≡ is_digit character }
{
    (b'0'..=b'9').contains(&character)
}

// A number of one digit or more, at most so much.
pub fn read_decimal(text: &[u8], most: u32) -> Option<u32>
    ensures { result ≡ decimal_read text.now most }
{
    if text.is_empty() {
        return None;
    }
    let mut value: u32 = 0;
    for character in text {
        if !is_digit(*character) {
            return None;
        }
        let next = value as u64 * 10 + (*character - b'0') as u64;
        if (most as u64) < next {
            return None;
        }
        value = next as u32;
    }
    Some(value)
}
