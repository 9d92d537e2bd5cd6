// The device's end: one session, whose link an Open with the device's own UUID opens. The record goes in and comes back by value; the UUID and the area
// are lent with each call. The host writes the Ack after "opened" and after "already".
#![tactic(auto)]

ghost use Rattle.std.specs.Prelude.{◌+◌, ◌≤◌, [], ◌∷◌, ◌≡◌, length};
ghost use Rattle.links.specs.Links.{blank};
ghost use Rattle.links.specs.Station.{open_step, local_send, local_close};
ghost use Rattle.links.specs.Device.{heard};
ghost use Rattle.links.specs.declared.Side.TheVariants.{Device};
ghost use Rattle.link_steps.specs.Calls.{one_link, stepped_of};
ghost use Rattle.device.specs.Calls.{handed_back, record_back, only_socket};

use link_records::blank_with;
use link_steps::{Stepped, refuse_link};
use links::{Answer, Link, LinkState, Refusal, Side};
use octets::LONGEST_MESSAGE;
use pb_adv::Frame;

// The octets of the area: those of a longest message.
pub const AREA_LENGTH: usize = LONGEST_MESSAGE;

// The octets of a UUID.
pub const UUID_LENGTH: usize = 16;

// The record at the start: no link.
pub fn new() -> Link
    ensures { result ≡ blank Device }
{
    blank_with(Side::Device, LinkState::Free, 0)
}

// An Open, past 11, 14, 1 and 2. Its UUID stands in the frame, from a place on.
fn on_open(link: Link, own: &[u8], frame: &[u8], id: u32, uuid: usize) -> Stepped
    requires { (length own.now ≡ 16) × (uuid + 16 ≤ length frame.now) }
    ensures { result ≡ stepped_of (open_step own.now (one_link link []) frame.now id uuid) }
{
    if !octet_parts::same_part(frame, uuid, own, 0, UUID_LENGTH) {
        return refuse_link(link, Refusal::OtherUuid);
    }
    if !link_fields::is_in_use(link.state) {
        return Stepped {
            link: blank_with(Side::Device, LinkState::Open, id),
            answer: Ok(Answer::Opened),
        };
    }
    if link.id != id {
        return refuse_link(link, Refusal::Busy);
    }
    Stepped {
        link,
        answer: Ok(Answer::Already),
    }
}

// Receives a frame: 11 unless the area has AREA_LENGTH octets and the own UUID UUID_LENGTH.
pub fn receive(link: Link, own: &[u8], area: &mut [u8], frame: &[u8]) -> Stepped
    ensures { (result ≡ handed_back (heard own.now link area.old frame.now))
        × (area.new ≡ (heard own.now link area.old frame.now).1.area) }
{
    if own.len() != UUID_LENGTH {
        return refuse_link(link, Refusal::WrongArgument);
    }
    if area.len() != AREA_LENGTH {
        return refuse_link(link, Refusal::WrongArgument);
    }
    if !link_state::is_good_link(Side::Device, link) {
        return refuse_link(link, Refusal::BadState);
    }
    // In two steps: of one pattern for both nothing is known where it does not match.
    if let Ok(parsed) = pb_adv::parse(frame) {
        if let Frame::Open { id, uuid } = parsed {
            return on_open(link, own, frame, id, uuid);
        }
    }
    link_steps::receive(Side::Device, link, area, frame)
}

// Begins to send a message of so many octets: its number and SegN.
pub fn send(link: Link, length: usize) -> Stepped
    ensures { result ≡ record_back (local_send Device (link ∷ []) only_socket length) }
{
    if !octets::is_length(length) {
        return refuse_link(link, Refusal::WrongArgument);
    }
    if !link_state::is_good_link(Side::Device, link) {
        return refuse_link(link, Refusal::BadState);
    }
    link_steps::send(link, length as u16)
}

// Closes the link.
pub fn close(link: Link) -> Stepped
    ensures { result ≡ record_back (local_close Device (link ∷ []) only_socket) }
{
    if !link_state::is_good_link(Side::Device, link) {
        return refuse_link(link, Refusal::BadState);
    }
    link_steps::close(Side::Device, link)
}
