// The search for the record of a Link ID.
#![tactic(auto)]

ghost use Rattle.std.specs.Prelude.{◌≡◌, position};
ghost use Rattle.links.specs.Links.{has_id, find};

use link_fields::is_in_use;
use links::Link;

// Whether a record is in use and has a Link ID.
pub fn has_id(link: Link, id: u32) -> bool
    ensures { result ≡ has_id link id }
{
    is_in_use(link.state) && link.id == id
}

// The first place of such a record, by std's word for it.
fn first_with_id(links: &[Link], id: u32) -> Option<usize>
    ensures { result ≡ position (λ l. has_id l id) links.now }
{
    links.iter().position(|link| has_id(*link, id))
}

// The place of the record in use that has a Link ID.
#[tactic(auto, using(crate::proofs::Laws::found))]
pub fn find_link(links: [Link; 8], id: u32) -> Option<usize>
    ensures { result ≡ find links id }
{
    first_with_id(&links, id)
}
