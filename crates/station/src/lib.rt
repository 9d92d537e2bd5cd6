// The station's receiving call: eight sockets, the provisioner's end. It takes the eight link records by value and hands them back.
#![tactic(auto)]

ghost use Rattle.std.specs.Prelude.{◌*◌, ◌<◌, ◌≡◌, length};
ghost use Rattle.octets.specs.Parts.{write};
ghost use Rattle.link_steps.specs.Calls.{stepped_of};
ghost use Rattle.station.specs.Calls.{receiving, received_of, step_at, place_of};

use link_records::{Received, refuse_call};
use link_steps::Stepped;
use links::{Link, Refusal, Side};
use octets::LONGEST_MESSAGE;

// The octets of the area: those of a longest message for each socket.
pub const AREA_LENGTH: usize = 8 * LONGEST_MESSAGE;

// A frame for the link at a place, which is lent its socket's part of the area. The place stays a number: the definitions number places.
fn step_at(link: Link, place: usize, area: &mut [u8], frame: &[u8]) -> Stepped
    requires { (place < 8) × (length area.old ≡ 11752) }
    ensures { (result ≡ stepped_of (step_at link area.old frame.now place))
        × (area.new ≡ write area.old (1469 * place) (step_at link area.old frame.now place).1.part) }
{
    let base = LONGEST_MESSAGE * place;
    link_steps::receive(
        Side::Provisioner,
        link,
        &mut area[base..base + LONGEST_MESSAGE],
        frame,
    )
}

// The place of the record that was found. Where none was, that of any will do: no record has the frame's Link ID, and each refuses it.
fn place_of(found: Option<usize>) -> usize
    ensures { result ≡ place_of found }
{
    found.unwrap_or(0)
}

// Receives a frame. The area has AREA_LENGTH octets.
pub fn receive(links: [Link; 8], area: &mut [u8], frame: &[u8]) -> Received
    ensures { (result ≡ received_of (receiving links area.old frame.now))
        × (area.new ≡ (receiving links area.old frame.now).1.area) }
{
    if area.len() != AREA_LENGTH {
        return refuse_call(links, Refusal::WrongArgument);
    }
    if !link_state::is_good(Side::Provisioner, links) {
        return refuse_call(links, Refusal::BadState);
    }
    // A frame begins with its Link ID.
    let found = link_search::find_link(links, octets::read32(frame, 0));
    let place = place_of(found);
    let stepped = step_at(links[place], place, area, frame);
    // The records are copied once, after the step.
    let mut links = links;
    links[place] = stepped.link;
    Received {
        links,
        answer: stepped.answer,
    }
}
