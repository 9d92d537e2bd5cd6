// The steps of one link, at either end: a frame that is received for it, a local Send and a local Close. They take any record, and are what the calls of
// station, local_calls and device do once they have judged arguments and state; a host makes those calls.
#![tactic(auto)]

mod other_frames;
mod segments;

ghost use Rattle.std.specs.Prelude.{[], ◌≡◌};
ghost use Rattle.links.specs.Station.{send_step, close_step};
ghost use Rattle.link_steps.specs.Calls.{one_link, stepped_of, record_stepped, state_for, of_link, in_range, link_received};
ghost use Rattle.link_steps.specs.Steps.{link_refused, NoSegment};

use link_records::{blank_with, with_sending};
use links::{Answer, HalfMessage, Link, LinkState, Refusal, Side};
use octets::LONGEST_MESSAGE;
use other_frames::{step_open, step_opening};
use pb_adv::Frame;
use segments::take_segment;

// One record after a step of its link, and the answer.
// A record of its own, as each call's: one generic record of a state and an answer would call it by one name with all others, and be no plainer.
#[derive(Clone, Copy)]
pub struct Stepped {
    pub link: Link,
    pub answer: Result<Answer, Refusal>,
}

// The record as it was, and a refusal.
pub fn refuse_link(link: Link, refusal: Refusal) -> Stepped
    ensures { result ≡ link_refused link refusal }
{
    Stepped {
        link,
        answer: Err(refusal),
    }
}

// Whether a half-received message has a length that a message may have.
fn is_in_range(half: Option<HalfMessage>) -> bool
    ensures { result ≡ in_range half }
{
    match half {
        None => true,
        Some(message) => octets::is_length(message.length as usize),
    }
}

// The link's state for a frame with a Link ID: for another than its own as if it were free.
fn state_for(link: Link, id: u32) -> LinkState
    ensures { result ≡ state_for link id }
{
    if link.id == id {
        link.state
    } else {
        LinkState::Free
    }
}

// A frame that is no segment.
fn receive_other(side: Side, link: Link, parsed: Frame) -> Stepped
    requires { NoSegment parsed }
    ensures { result ≡ stepped_of (of_link side (one_link link []) [] (Ok parsed)) }
{
    match state_for(link, parsed.id()) {
        LinkState::Free => refuse_link(link, Refusal::UnknownLink),
        LinkState::Opening => step_opening(side, link, parsed),
        LinkState::Open => step_open(side, link, parsed),
    }
}

// Receives a frame at one link: 11 unless the part has LONGEST_MESSAGE octets, and of what is bad 14 for an L out of range, which would reach past the
// part. An Open gets 3, 4 or 5; a device takes it before.
pub fn receive(side: Side, link: Link, part: &mut [u8], frame: &[u8]) -> Stepped
    ensures { (result ≡ stepped_of (link_received side (one_link link part.old) frame.now))
        × (part.new ≡ (link_received side (one_link link part.old) frame.now).1.part) }
{
    if part.len() != LONGEST_MESSAGE {
        return refuse_link(link, Refusal::WrongArgument);
    }
    if !is_in_range(link.half) {
        return refuse_link(link, Refusal::BadState);
    }
    let parsed = match pb_adv::parse(frame) {
        Ok(parsed) => parsed,
        Err(refusal) => return refuse_link(link, Refusal::from(refusal)),
    };
    let Frame::Segment(segment) = parsed else {
        return receive_other(side, link, parsed);
    };
    let state = state_for(link, segment.id);
    take_segment(side, link, state, segment, part, frame)
}

// Begins to send a message of so many octets: 4 and 13.
pub fn send(link: Link, length: u16) -> Stepped
    ensures { result ≡ record_stepped (send_step link length) }
{
    if !link_fields::is_open(link.state) {
        return refuse_link(link, Refusal::NotOpen);
    }
    if link.outstanding {
        return refuse_link(link, Refusal::Outstanding);
    }
    let number = link.next;
    Stepped {
        link: with_sending(link, number, true),
        answer: Ok(Answer::Sending {
            number,
            last: transactions::last_segment(length),
        }),
    }
}

// Frees the record: 4.
pub fn close(side: Side, link: Link) -> Stepped
    ensures { result ≡ record_stepped (close_step side link) }
{
    if !link_fields::is_in_use(link.state) {
        return refuse_link(link, Refusal::NotOpen);
    }
    Stepped {
        link: blank_with(side, LinkState::Free, 0),
        answer: Ok(Answer::Done),
    }
}
