// The numbers of the channel's line.
ghost use Rattle.std.specs.Prelude.{◌≡◌, ◌≤◌, eqb, length, position};
ghost use Rattle.rehearsal_lines.specs.Lines.{field, rates_of, settings_of};

use super::Line;
use super::decimals::read_decimal;

// The most that a seed and a rate may be.
const MOST_SEED: u32 = 4294967295;

const MOST_RATE: u32 = 100;

// The place of the first space.
fn first_space(text: &[u8]) -> Option<usize>
    ensures { result ≡ position (λ c. eqb c 32) text.now }
{
    text.iter().position(|character| *character == b' ')
}

// How many characters stand before the first space.
fn field_length(text: &[u8]) -> usize
    ensures { (result ≡ length (field text.now)) × (result ≤ length text.now) }
{
    first_space(text).unwrap_or(text.len())
}

// The two rates, behind the seed.
fn read_rates(seed: u32, rates: &[u8]) -> Line
    ensures { result ≡ rates_of seed rates.now }
{
    let end = field_length(rates);
    let Some(lost) = read_decimal(&rates[..end], MOST_RATE) else {
        return Line::Other;
    };
    if rates.len() <= end {
        return Line::Other;
    }
    let Some(repeated) = read_decimal(&rates[end + 1..], MOST_RATE) else {
        return Line::Other;
    };
    Line::Channel {
        seed,
        lost: lost as u8,
        repeated: repeated as u8,
    }
}

// The seed and the two rates.
pub fn read_settings(settings: &[u8]) -> Line
    ensures { result ≡ settings_of settings.now }
{
    let end = field_length(settings);
    let Some(seed) = read_decimal(&settings[..end], MOST_SEED) else {
        return Line::Other;
    };
    if settings.len() <= end {
        return Line::Other;
    }
    read_rates(seed, &settings[end + 1..])
}
