// The entries of a proxy filter: the lookup on which every rule rests, and the test for entries that are not bad.
#![tactic(auto)]

ghost use Rattle.std.specs.Prelude.{◌≡◌, ◌==◌, ◌&&◌, not, eqb, drop, position};
ghost use Rattle.std.specs.List.{list_all};
ghost use Rattle.filter_entries.specs.Entries.{find_from, is_on, all_allowed, all_unused, are_good};

// The place of an address among those held from a place on, counted from there.
fn place_past(held: &[u16], from: usize, address: u16) -> Option<usize>
    ensures { result ≡ position (λ x. x == address) (drop from held.now) }
{
    held.iter().skip(from).position(|held| *held == address)
}

// The lookup: the place of an address among those held, from a place on.
pub fn find_from(held: &[u16], from: usize, address: u16) -> Option<usize>
    ensures { result ≡ find_from from (drop from held.now) address }
{
    let place = place_past(held, from, address)?;
    Some(from + place)
}

// Whether an address isn't 0x0000 and isn't among those held from a place on.
fn is_allowed(held: &[u16], from: usize, address: u16) -> bool
    ensures { result ≡ (not (eqb address 0) && not (is_on (drop from held.now) address)) }
{
    address != 0 && find_from(held, from, address).is_none()
}

// Whether no address held is 0x0000 or repeated.
fn all_allowed(held: &[u16]) -> bool
    ensures { result ≡ all_allowed held.now }
{
    for (i, address) in held.iter().enumerate() {
        if !is_allowed(held, i + 1, *address) {
            return false;
        }
    }
    true
}

// Whether no place is in use.
fn all_unused(places: &[u16]) -> bool
    ensures { result ≡ list_all (λ x. x == 0) places.now }
{
    places.iter().all(|address| *address == 0)
}

// Whether entries of which the first count are held aren't bad.
// A count stays beside the array, which is no slice of those held: a count over 16 is bad.
#[tactic(auto, using(crate::proofs::Lists::unused_by_all))]
pub fn is_good(entries: [u16; 16], count: usize) -> bool
    ensures { result ≡ are_good count entries }
{
    let Some((held, past)) = entries.split_at_checked(count) else {
        return false;
    };
    all_allowed(held) && all_unused(past)
}
