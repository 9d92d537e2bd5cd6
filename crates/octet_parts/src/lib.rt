// Parts of lists of octets, copied and compared.
#![tactic(auto)]

ghost use Rattle.std.specs.Prelude.{true, ◌&&◌, ◌≡◌, ◌+◌, ◌-◌, ◌≤◌, leb, length};
ghost use Rattle.octets.specs.Parts.{write, copy_fits, copied, same, same_part};

// Whether so many octets from a place on are within a list of a length.
fn fits(length: usize, at: usize, count: usize) -> bool
    ensures { (result ≡ (leb at length && leb count (length - at))) × (result ≡ true → at + count ≤ length) }
{
    at <= length && count <= length - at
}

fn copy_all(to: &mut [u8], at: usize, source: &[u8])
    requires { at + length source.now ≤ length to.old }
    ensures { to.new ≡ write to.old at source.now }
{
    to[at..at + source.len()].copy_from_slice(source);
}

// Copies count octets of the source from a place on to another place; false, and nothing copied, where that does not fit.
pub fn copy(to: &mut [u8], at: usize, source: &[u8], from: usize, count: usize) -> bool
    ensures { (result ≡ copy_fits to.old at source.now from count)
        × (to.new ≡ copied to.old at source.now from count) }
{
    // Two tests and no `&&`: what the first one says of `at + count` is lost where the two ways join again.
    if fits(to.len(), at, count) {
        if fits(source.len(), from, count) {
            copy_all(to, at, &source[from..from + count]);
            return true;
        }
    }
    false
}

// Whether count octets from a place on are those of another list from a place on; not where they are past an end.
#[tactic(auto, using(octets::proofs::Tests::tests, crate::proofs::Laws::same_by_first), unfolding(octets::specs::Parts::same_part))]
pub fn same_part(a: &[u8], at: usize, b: &[u8], from: usize, count: usize) -> bool
    ensures { result ≡ same_part a.now at b.now from count }
{
    fits(a.len(), at, count)
        && fits(b.len(), from, count)
        && a[at..at + count] == b[from..from + count]
}
