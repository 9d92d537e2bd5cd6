// The steps of a frame that is no segment, at a link of its Link ID.
ghost use Rattle.std.specs.Prelude.{[], ◌≡◌};
ghost use Rattle.links.specs.Links.{blank, with_state};
ghost use Rattle.links.specs.Station.{acknowledgement_step, ack_step};
ghost use Rattle.links.specs.declared.LinkState.TheVariants.{Opening, Open};
ghost use Rattle.links.specs.declared.Answer.TheVariants.{Opened, Closed};
ghost use Rattle.link_steps.specs.Calls.{one_link, stepped_of};
ghost use Rattle.link_steps.specs.Steps.{stepped_to, NoSegment, other_step};

use super::{Stepped, refuse_link};
use link_records::{blank_with, with_sending};
use links::{Answer, Link, LinkState, Refusal, Side};
use pb_adv::Frame;
use transactions::TransactionNumber;

// The record that its Ack opens.
fn after_ack(link: Link) -> Stepped
    ensures { result ≡ stepped_to (with_state link Open) (Ok Opened) }
{
    Stepped {
        link: Link {
            state: LinkState::Open,
            ..link
        },
        answer: Ok(Answer::Opened),
    }
}

// The record that a Close frees.
fn after_close(side: Side, reason: u8) -> Stepped
    ensures { result ≡ stepped_to (blank side) (Ok (Closed reason)) }
{
    Stepped {
        link: blank_with(side, LinkState::Free, 0),
        answer: Ok(Answer::Closed { reason }),
    }
}

// An acknowledgement at an open link.
#[tactic(auto, unfolding(links::specs::Station::acknowledgement_step))]
fn on_acknowledgement(link: Link, number: TransactionNumber) -> Stepped
    ensures { result ≡ stepped_of (acknowledgement_step (one_link link []) number) }
{
    if link.outstanding && link.next == number {
        return Stepped {
            link: with_sending(link, number.next(), false),
            answer: Ok(Answer::Acknowledged),
        };
    }
    refuse_link(link, Refusal::NotOutstanding)
}

// An Ack at an open link: "already", or 5 at a device's end.
fn on_ack(side: Side, link: Link) -> Stepped
    ensures { result ≡ stepped_of (ack_step side (one_link link [])) }
{
    match side {
        Side::Provisioner => Stepped {
            link,
            answer: Ok(Answer::Already),
        },
        Side::Device => Stepped {
            link,
            answer: Err(Refusal::WrongDirection),
        },
    }
}

// A frame at an opening link.
#[tactic(auto, unfolding(links::specs::Station::frame_step))]
pub(super) fn step_opening(side: Side, link: Link, parsed: Frame) -> Stepped
    ensures { result ≡ stepped_of (other_step side link Opening (Ok parsed)) }
{
    match parsed {
        Frame::Segment(_) => refuse_link(link, Refusal::NotOpen),
        Frame::Acknowledgement { id: _, number: _ } => refuse_link(link, Refusal::NotOpen),
        Frame::Open { id: _, uuid: _ } => refuse_link(link, Refusal::NotOpen),
        Frame::Ack { id: _ } => after_ack(link),
        Frame::Close { id: _, reason } => after_close(side, reason),
    }
}

// A frame at an open link; a segment does not come here.
#[tactic(auto, unfolding(links::specs::Station::frame_step))]
pub(super) fn step_open(side: Side, link: Link, parsed: Frame) -> Stepped
    requires { NoSegment parsed }
    ensures { result ≡ stepped_of (other_step side link Open (Ok parsed)) }
{
    match parsed {
        Frame::Segment(_) => refuse_link(link, Refusal::WrongDirection),
        Frame::Acknowledgement { id: _, number } => {
            if link_fields::is_sent_by(side, number) {
                on_acknowledgement(link, number)
            } else {
                refuse_link(link, Refusal::WrongDirection)
            }
        }
        Frame::Open { id: _, uuid: _ } => refuse_link(link, Refusal::WrongDirection),
        Frame::Ack { id: _ } => on_ack(side, link),
        Frame::Close { id: _, reason } => after_close(side, reason),
    }
}
