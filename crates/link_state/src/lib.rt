// The test for a state that is not bad.
#![tactic(auto)]

ghost use Rattle.std.specs.Prelude.{◌≡◌, ◌&&◌, not};
ghost use Rattle.transactions.specs.Segments.{seg_n};
ghost use Rattle.links.specs.Marks.{is_marked, all_marked, none_above};
ghost use Rattle.links.specs.Links.{peer};
ghost use Rattle.std.specs.List.{list_all};
ghost use Rattle.links.specs.Good.{good_message, good_half, good_last, at_rest, good_link, apart, all_apart, good};

use link_fields::{
    all_marked, first_number, is_in_use, is_last, is_marked, is_sent_by, none_above,
};
use links::{HalfMessage, Link, LinkState, Side};
use transactions::{TransactionNumber, last_segment};

// The other end.
pub fn peer_of(side: Side) -> Side
    ensures { result ≡ peer side }
{
    match side {
        Side::Provisioner => Side::Device,
        Side::Device => Side::Provisioner,
    }
}

// Whether segment 0 is in, one is missing, and none above SegN is in.
fn good_marks(length: u16, marks: u64) -> bool
    ensures { result ≡ (is_marked marks 0 && (not (all_marked (seg_n length) marks) && none_above (seg_n length) marks)) }
{
    let last = last_segment(length) as usize;
    is_marked(marks, 0) && !all_marked(last, marks) && none_above(last, marks)
}

#[tactic(auto, unfolding(links::specs::Good::good_message))]
fn good_message(side: Side, last: Option<TransactionNumber>, message: HalfMessage) -> bool
    ensures { result ≡ good_message side last message }
{
    is_sent_by(peer_of(side), message.number)
        && octets::is_length(message.length as usize)
        && !is_last(last, message.number)
        && good_marks(message.length, message.marks)
}

fn good_half(side: Side, last: Option<TransactionNumber>, half: Option<HalfMessage>) -> bool
    ensures { result ≡ good_half side last half }
{
    match half {
        None => true,
        Some(message) => good_message(side, last, message),
    }
}

fn good_last(side: Side, last: Option<TransactionNumber>) -> bool
    ensures { result ≡ good_last side last }
{
    match last {
        None => true,
        Some(number) => is_sent_by(peer_of(side), number),
    }
}

// Whether a record is blank but for its state and its Link ID.
fn is_at_rest(side: Side, link: Link) -> bool
    ensures { result ≡ at_rest side link }
{
    link.next == first_number(side)
        && !link.outstanding
        && link.last.is_none()
        && link.half.is_none()
}

// Whether a record is not bad by itself; the device's end has none that is opening.
pub fn is_good_link(side: Side, link: Link) -> bool
    ensures { result ≡ good_link side link }
{
    match link.state {
        LinkState::Free => link.id == 0 && is_at_rest(side, link),
        LinkState::Opening => side == Side::Provisioner && is_at_rest(side, link),
        LinkState::Open => {
            is_sent_by(side, link.next)
                && good_last(side, link.last)
                && good_half(side, link.last, link.half)
        }
    }
}

// Whether each record is not bad by itself.
fn all_good(side: Side, links: [Link; 8]) -> bool
    ensures { result ≡ list_all (good_link side) links }
{
    links.iter().all(|link| is_good_link(side, *link))
}

// Whether two records do not have one Link ID in use.
fn are_apart(a: Link, b: Link) -> bool
    ensures { result ≡ apart a b }
{
    a.id != b.id || !is_in_use(a.state) || !is_in_use(b.state)
}

// Whether a record has no Link ID in use with any of others.
fn is_apart_from(link: Link, others: &[Link]) -> bool
    ensures { result ≡ list_all (apart link) others.now }
{
    others.iter().all(|other| are_apart(link, *other))
}

// Whether no two of the records have one Link ID in use.
fn all_apart(links: &[Link]) -> bool
    ensures { result ≡ all_apart links.now }
{
    match links.split_first() {
        None => true,
        Some((link, others)) => is_apart_from(*link, others) && all_apart(others),
    }
}

// Whether the state of eight records is not bad.
#[tactic(auto, unfolding(links::specs::Good::good))]
pub fn is_good(side: Side, links: [Link; 8]) -> bool
    ensures { result ≡ good side links }
{
    all_good(side, links) && all_apart(&links)
}
