// The check octet of 3GPP TS 27.010 (the FCS of a transaction), bit by bit.
#![tactic(auto)]

ghost use Rattle.std.specs.Prelude.{◌≡◌};
ghost use Rattle.fcs.specs.Fcs.{bit_step, octet_step, remainder, check_octet};

fn bit_step(x: u8) -> u8
    ensures { result ≡ bit_step x }
{
    if x % 2 == 1 { (x / 2) ^ 0xE0 } else { x / 2 }
}

fn octet_step(remainder: u8, octet: u8) -> u8
    ensures { result ≡ octet_step remainder octet }
{
    let mut x = remainder ^ octet;
    for _ in 0..8u8 {
        x = bit_step(x);
    }
    x
}

// The remainder after more octets.
fn remainder_after(start: u8, octets: &[u8]) -> u8
    ensures { result ≡ remainder start octets.now }
{
    octets
        .iter()
        .fold(start, |remainder, octet| octet_step(remainder, *octet))
}

// The remainder of a message, and of nothing else.
fn remainder_of(message: &[u8]) -> u8
    ensures { result ≡ remainder 0xFF message.now }
{
    remainder_after(0xFF, message)
}

// The check octet of a message, of any length.
pub fn check_octet(message: &[u8]) -> u8
    ensures { result ≡ check_octet message.now }
{
    0xFF - remainder_of(message)
}
