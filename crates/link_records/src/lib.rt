// Link records made anew, and the eight of a station: one of them stored, and what a call hands back.
#![tactic(auto)]

ghost use Rattle.std.specs.Prelude.{◌≡◌, get_or, replicate};
ghost use Rattle.links.specs.Links.{blank, blank_with, with_sending};
ghost use Rattle.links.specs.Station.{no_link};
ghost use Rattle.links.specs.declared.Side.TheVariants.{Provisioner};
ghost use Rattle.link_records.specs.Records.{call_refused, stored};

use links::{Answer, Link, LinkState, Refusal, Side};
use transactions::TransactionNumber;

// The records after a call, and its answer.
// A record of its own, as each call's: one generic record of a state and an answer would call them by one name with all others, and be no plainer.
#[derive(Clone, Copy)]
pub struct Received {
    pub links: [Link; 8],
    pub answer: Result<Answer, Refusal>,
}

// A record of an end in a state and with a Link ID, and else blank.
pub fn blank_with(side: Side, state: LinkState, id: u32) -> Link
    ensures { result ≡ blank_with side state id }
{
    Link {
        state,
        id,
        next: link_fields::first_number(side),
        outstanding: false,
        last: None,
        half: None,
    }
}

// The records of a station at its start: eight sockets, all free.
pub fn blank_links() -> [Link; 8]
    ensures { result ≡ replicate 8 (blank Provisioner) }
{
    [blank_with(Side::Provisioner, LinkState::Free, 0); 8]
}

// The record with another sending number and outstanding mark.
pub fn with_sending(link: Link, next: TransactionNumber, outstanding: bool) -> Link
    ensures { result ≡ with_sending link next outstanding }
{
    Link {
        next,
        outstanding,
        ..link
    }
}

// The records as they were, and a refusal.
pub fn refuse_call(links: [Link; 8], refusal: Refusal) -> Received
    ensures { result ≡ call_refused links refusal }
{
    Received {
        links,
        answer: Err(refusal),
    }
}

// The record at a place; a blank one if there is no such place.
pub fn link_at(links: [Link; 8], place: usize) -> Link
    ensures { result ≡ get_or links place no_link }
{
    match links.get(place) {
        Some(link) => *link,
        None => blank_with(Side::Provisioner, LinkState::Free, 0),
    }
}

// The records with another at a place, if there is such a place, and an answer.
pub fn store(
    links: [Link; 8],
    place: usize,
    link: Link,
    answer: Result<Answer, Refusal>,
) -> Received
    ensures { result ≡ stored links place link answer }
{
    let mut links = links;
    if place < 8 {
        links[place] = link;
    }
    Received { links, answer }
}
