// The steps of a segment at a link of its Link ID.
ghost use Rattle.std.specs.Prelude.{◌≤◌, ◌≡◌, length};
ghost use Rattle.pb_adv.specs.declared.SegmentHeader.TheVariants.{Start, Continuation};
ghost use Rattle.links.specs.Links.{with_received};
ghost use Rattle.links.specs.Segments.{begun, marked, completed};
ghost use Rattle.link_steps.specs.Calls.{stepped_of};
ghost use Rattle.link_steps.specs.Steps.{stepped_to, compared, entered_at, offered_at, begun_at, OfferAsks, EnterAsks, HeaderAsks, SegmentAsks, by_header, segment_steps, segment_taken};

use super::{Stepped, refuse_link};
use links::{Answer, HalfMessage, Link, LinkState, Refusal, Side};
use pb_adv::{Segment, SegmentHeader};
use transactions::TransactionNumber;

// The record with another last delivered number and half-received message, and the answer to the segment.
fn after_segment(
    link: Link,
    last: Option<TransactionNumber>,
    half: Option<HalfMessage>,
    answer: Result<Answer, Refusal>,
) -> Stepped
    ensures { result ≡ stepped_to (with_received link last half) answer }
{
    Stepped {
        link: Link { last, half, ..link },
        answer,
    }
}

// A message of which nothing is in yet.
fn begin(number: TransactionNumber, length: u16, check: u8) -> HalfMessage
    ensures { result ≡ begun number length check }
{
    HalfMessage {
        number,
        length,
        check,
        marks: 0,
    }
}

// The message with a segment in too.
fn mark(message: HalfMessage, index: u16) -> HalfMessage
    requires { index ≤ 63 }
    ensures { result ≡ marked message index }
{
    HalfMessage {
        marks: link_fields::with_mark(message.marks, index as usize),
        ..message
    }
}

// The link after the message got a segment: delivered, refused by its check octet, or kept.
fn complete(link: Link, message: HalfMessage, part: &[u8]) -> Stepped
    requires { message.length ≤ length part.now }
    ensures { result ≡ stepped_of (completed link message part.now) }
{
    let length = message.length;
    if !link_fields::all_marked(transactions::last_segment(length) as usize, message.marks) {
        return after_segment(link, link.last, Some(message), Ok(Answer::Kept));
    }
    if fcs::check_octet(&part[..length as usize]) != message.check {
        return after_segment(link, link.last, None, Err(Refusal::WrongCheck));
    }
    let number = message.number;
    let delivered = Answer::Delivered { length, number };
    after_segment(link, Some(number), None, Ok(delivered))
}

// Enters a new segment.
fn enter(link: Link, message: HalfMessage, index: u16, part: &mut [u8], octets: &[u8]) -> Stepped
    requires { EnterAsks message index part.old octets.now }
    ensures { (result ≡ stepped_of (entered_at link part.old message index octets.now))
        × (part.new ≡ (entered_at link part.old message index octets.now).1.part) }
{
    let place = transactions::segment_place(index);
    octet_parts::copy(part, place, octets, 0, octets.len());
    complete(link, mark(message, index), &part[..])
}

// Compares a segment that is in with what is there.
#[tactic(auto, unfolding(crate::specs::Steps::compared))]
fn compare(index: u16, part: &[u8], octets: &[u8]) -> Result<Answer, Refusal>
    ensures { result ≡ compared index part.now octets.now }
{
    let place = transactions::segment_place(index);
    if octet_parts::same_part(part, place, octets, 0, octets.len()) {
        Ok(Answer::Repeat)
    } else {
        Err(Refusal::Mismatch)
    }
}

// A segment of the message that is half-received.
fn offer(link: Link, message: HalfMessage, index: u16, part: &mut [u8], octets: &[u8]) -> Stepped
    requires { OfferAsks message part.old }
    ensures { (result ≡ stepped_of (offered_at link part.old message index octets.now))
        × (part.new ≡ (offered_at link part.old message index octets.now).1.part) }
{
    let length = message.length;
    if transactions::last_segment(length) < index {
        return refuse_link(link, Refusal::Mismatch);
    }
    if octets.len() != transactions::segment_length(length, index) {
        return refuse_link(link, Refusal::Mismatch);
    }
    if link_fields::is_marked(message.marks, index as usize) {
        let answer = compare(index, &part[..], octets);
        return Stepped { link, answer };
    }
    enter(link, message, index, part, octets)
}

// A Start that begins a message.
fn begin_message(
    link: Link,
    number: TransactionNumber,
    length: u16,
    check: u8,
    part: &mut [u8],
    octets: &[u8],
) -> Stepped
    requires { HeaderAsks link part.old (Start length check) octets.now }
    ensures { (result ≡ stepped_of (begun_at link part.old number length check octets.now))
        × (part.new ≡ (begun_at link part.old number length check octets.now).1.part) }
{
    enter(link, begin(number, length, check), 0, part, octets)
}

// A Start: it begins a message, or is segment 0 of the one that is half-received.
fn on_start(
    link: Link,
    number: TransactionNumber,
    length: u16,
    check: u8,
    part: &mut [u8],
    octets: &[u8],
) -> Stepped
    requires { HeaderAsks link part.old (Start length check) octets.now }
    ensures { (result ≡ stepped_of (by_header link part.old number (Start length check) octets.now))
        × (part.new ≡ (by_header link part.old number (Start length check) octets.now).1.part) }
{
    let Some(message) = link.half else {
        return begin_message(link, number, length, check, part, octets);
    };
    if message.number != number {
        return begin_message(link, number, length, check, part, octets);
    }
    if message.length != length || message.check != check {
        return refuse_link(link, Refusal::Mismatch);
    }
    offer(link, message, 0, part, octets)
}

// A Continuation of the message that is half-received.
fn on_continuation(
    link: Link,
    number: TransactionNumber,
    index: u8,
    part: &mut [u8],
    octets: &[u8],
) -> Stepped
    requires { HeaderAsks link part.old (Continuation index) octets.now }
    ensures { (result ≡ stepped_of (by_header link part.old number (Continuation index) octets.now))
        × (part.new ≡ (by_header link part.old number (Continuation index) octets.now).1.part) }
{
    let Some(message) = link.half else {
        return refuse_link(link, Refusal::NotBegun);
    };
    if message.number != number {
        return refuse_link(link, Refusal::NotBegun);
    }
    offer(link, message, index as u16, part, octets)
}

// A segment at an open link.
fn step_segment(link: Link, segment: Segment, part: &mut [u8], frame: &[u8]) -> Stepped
    requires { SegmentAsks link part.old frame.now segment }
    ensures { (result ≡ stepped_of (segment_steps link part.old frame.now segment))
        × (part.new ≡ (segment_steps link part.old frame.now segment).1.part) }
{
    let number = segment.number;
    if link_fields::is_last(link.last, number) {
        return Stepped {
            link,
            answer: Ok(Answer::AcknowledgeAgain),
        };
    }
    let octets = &frame[segment.from..segment.from + segment.count];
    match segment.header {
        SegmentHeader::Start { length, check } => {
            on_start(link, number, length, check, part, octets)
        }
        SegmentHeader::Continuation { index } => on_continuation(link, number, index, part, octets),
    }
}

// A segment at a link, by the link's state for it.
#[tactic(auto, unfolding(links::specs::Station::frame_step))]
pub(super) fn take_segment(
    side: Side,
    link: Link,
    state: LinkState,
    segment: Segment,
    part: &mut [u8],
    frame: &[u8],
) -> Stepped
    requires { SegmentAsks link part.old frame.now segment }
    ensures { (result ≡ stepped_of (segment_taken side link state part.old frame.now segment))
        × (part.new ≡ (segment_taken side link state part.old frame.now segment).1.part) }
{
    match state {
        LinkState::Free => refuse_link(link, Refusal::UnknownLink),
        LinkState::Opening => refuse_link(link, Refusal::NotOpen),
        LinkState::Open if link_fields::is_sent_by(link_state::peer_of(side), segment.number) => {
            step_segment(link, segment, part, frame)
        }
        LinkState::Open => refuse_link(link, Refusal::WrongDirection),
    }
}
