// The station's local calls: open, send and close. Each takes the eight link records by value and hands them back.
#![tactic(auto)]

ghost use Rattle.std.specs.Prelude.{◌≡◌};
ghost use Rattle.links.specs.Station.{open_at, local_open, at_record, link_at, send_step, local_send, close_step, local_close};
ghost use Rattle.links.specs.declared.Side.TheVariants.{Provisioner};
ghost use Rattle.local_calls.specs.Calls.{called_of};

use link_records::{Received, blank_with, link_at, refuse_call, store};
use links::{Answer, Link, LinkState, Refusal, Side};
use transactions::Socket;

// Open, once 11 and 14 are tried.
fn open_at(links: [Link; 8], socket: Socket, id: u32) -> Received
    ensures { result ≡ called_of (open_at Provisioner links socket id) }
{
    let place = socket.place();
    if link_fields::is_in_use(link_at(links, place).state) {
        return refuse_call(links, Refusal::SocketInUse);
    }
    if link_search::find_link(links, id).is_some() {
        return refuse_call(links, Refusal::LinkIdInUse);
    }
    let opened = blank_with(Side::Provisioner, LinkState::Opening, id);
    store(links, place, opened, Ok(Answer::Done))
}

// Opens a link with a Link ID at a socket.
#[tactic(auto, unfolding(links::specs::Station::local_open))]
pub fn open(links: [Link; 8], socket: Socket, id: u32) -> Received
    ensures { result ≡ called_of (local_open Provisioner links socket id) }
{
    if !socket.is_one_of(8) {
        return refuse_call(links, Refusal::WrongArgument);
    }
    if !link_state::is_good(Side::Provisioner, links) {
        return refuse_call(links, Refusal::BadState);
    }
    open_at(links, socket, id)
}

// Send, once 11 and 14 are tried.
fn send_at(links: [Link; 8], socket: Socket, length: u16) -> Received
    ensures { result ≡ called_of (at_record links socket (send_step (link_at links socket) length)) }
{
    let place = socket.place();
    let stepped = link_steps::send(link_at(links, place), length);
    store(links, place, stepped.link, stepped.answer)
}

// Begins to send a message of so many octets on a socket's link: its number and SegN.
#[tactic(auto, unfolding(links::specs::Station::local_send))]
pub fn send(links: [Link; 8], socket: Socket, length: usize) -> Received
    ensures { result ≡ called_of (local_send Provisioner links socket length) }
{
    if !socket.is_one_of(8) {
        return refuse_call(links, Refusal::WrongArgument);
    }
    if !octets::is_length(length) {
        return refuse_call(links, Refusal::WrongArgument);
    }
    if !link_state::is_good(Side::Provisioner, links) {
        return refuse_call(links, Refusal::BadState);
    }
    send_at(links, socket, length as u16)
}

// Close, once 11 and 14 are tried.
fn close_at(links: [Link; 8], socket: Socket) -> Received
    ensures { result ≡ called_of (at_record links socket (close_step Provisioner (link_at links socket))) }
{
    let place = socket.place();
    let stepped = link_steps::close(Side::Provisioner, link_at(links, place));
    store(links, place, stepped.link, stepped.answer)
}

// Closes a socket's link.
#[tactic(auto, unfolding(links::specs::Station::local_close))]
pub fn close(links: [Link; 8], socket: Socket) -> Received
    ensures { result ≡ called_of (local_close Provisioner links socket) }
{
    if !socket.is_one_of(8) {
        return refuse_call(links, Refusal::WrongArgument);
    }
    if !link_state::is_good(Side::Provisioner, links) {
        return refuse_call(links, Refusal::BadState);
    }
    close_at(links, socket)
}
