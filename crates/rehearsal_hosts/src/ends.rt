// The ends of a link with their hosts: the station at a socket, and a device.
ghost use Rattle.std.specs.Prelude.{◌≡◌};
ghost use Rattle.links.specs.Device.{heard};
ghost use Rattle.station.specs.Calls.{receiving};
ghost use Rattle.rehearsal_hosts.specs.Ends.{invited, station_heard, opened_end, closed_end, answered_by, answered_end, station_next, device_heard, device_next};

use super::devices::{device_notes, device_sending, device_sent};
use super::stations::{station_closes, station_notes, station_sending, station_sent};
use super::{DeviceHost, Next, StationEnd};
use links::{Answer, Link, Refusal};
use transactions::{Socket, TransactionNumber};

// The octets of the Invite.
pub const INVITE_LENGTH: usize = 2;

// The reasons of a Close: the module did not answer in time, or is not provisioned.
pub const TIMED_OUT: u8 = 1;

const FAILED: u8 = 2;

// The station opens a socket with a Link ID.
pub fn open_link(end: StationEnd, socket: Socket, id: u32) -> StationEnd
    ensures { result ≡ opened_end end socket id }
{
    let called = local_calls::open(end.links, socket, id);
    // Through a local, here and below: the check has no rule for an array taken out of what a call hands back.
    let links = called.links;
    StationEnd { links, ..end }
}

// Once a link is open, the station begins to send the Invite.
fn invite(links: [Link; 8], socket: Socket, answer: Result<Answer, Refusal>) -> [Link; 8]
    ensures { result ≡ invited links socket answer }
{
    let Ok(Answer::Opened) = answer else {
        return links;
    };
    local_calls::send(links, socket, INVITE_LENGTH).links
}

// The station hears a frame of the module at a socket.
pub fn station_hears(end: StationEnd, socket: Socket, area: &mut [u8], frame: &[u8]) -> StationEnd
    ensures { (result ≡ station_heard end socket area.old frame.now)
        × (area.new ≡ (receiving end.links area.old frame.now).1.area) }
{
    let received = station::receive(end.links, area, frame);
    StationEnd {
        links: invite(received.links, socket, received.answer),
        host: station_notes(end.host, received.answer),
    }
}

// The station closes a socket's link, with a reason.
pub fn close_link(end: StationEnd, socket: Socket, reason: u8) -> StationEnd
    ensures { result ≡ closed_end end socket reason }
{
    let called = local_calls::close(end.links, socket);
    let Ok(Answer::Done) = called.answer else {
        return end;
    };
    let links = called.links;
    StationEnd {
        links,
        host: station_closes(end.host, reason),
    }
}

// What is done once a message was delivered last.
fn close_after(end: StationEnd, socket: Socket, last: Option<TransactionNumber>) -> StationEnd
    ensures { result ≡ answered_by end socket last }
{
    if last.is_none() || 1 <= end.host.acknowledgements {
        return end;
    }
    close_link(end, socket, FAILED)
}

// The station closes a link on which the module has answered and no acknowledgement is due.
pub fn close_answered(end: StationEnd, socket: Socket) -> StationEnd
    ensures { result ≡ answered_end end socket }
{
    let link = link_records::link_at(end.links, socket.place());
    close_after(end, socket, link.last)
}

// The station sends what it has to send at a socket.
pub fn station_next(end: StationEnd, socket: Socket) -> Next<StationEnd>
    ensures { result ≡ station_next end socket }
{
    let link = link_records::link_at(end.links, socket.place());
    let sending = station_sending(end.host, link);
    let after = StationEnd {
        host: station_sent(end.host, sending),
        ..end
    };
    Next {
        end: after,
        sending,
    }
}

// A device hears a frame; its own UUID and its area are lent.
pub fn device_hears(host: DeviceHost, own: &[u8], area: &mut [u8], frame: &[u8]) -> DeviceHost
    ensures { (result ≡ device_heard host own.now area.old frame.now)
        × (area.new ≡ (heard own.now host.link area.old frame.now).1.area) }
{
    let stepped = device::receive(host.link, own, area, frame);
    let after = DeviceHost {
        link: stepped.link,
        ..host
    };
    device_notes(after, stepped.answer)
}

// A device sends what it has to send.
pub fn device_next(host: DeviceHost) -> Next<DeviceHost>
    ensures { result ≡ device_next host }
{
    let sending = device_sending(host);
    Next {
        end: device_sent(host, sending),
        sending,
    }
}
