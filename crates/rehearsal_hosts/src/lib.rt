// The two ends of a link in a rehearsal, each with its host: what the host keeps beside the link record, what it has to send, what it notes of an
// answer, and the calls that it makes.
#![tactic(auto)]

mod devices;
mod ends;
mod stations;

ghost use Rattle.std.specs.Prelude.{◌≡◌};
ghost use Rattle.rehearsal_hosts.specs.Hosts.{one_more, one_fewer, acknowledgement_of, open_sending};

pub use devices::new_device;
pub use ends::{
    INVITE_LENGTH, TIMED_OUT, close_answered, close_link, device_hears, device_next, open_link,
    station_hears, station_next,
};
use links::Link;
pub use stations::new_station;
use transactions::TransactionNumber;

// What the station's host keeps of a socket.
#[derive(Clone, Copy)]
pub struct StationHost {
    // Acknowledgements and Closes that are due, and the reason of the Closes. It stays beside their number: on refusal 3 Closes are due again with the reason
    // that was given last, also where none is due (station_refused).
    pub acknowledgements: u32,
    pub closes: u32,
    pub reason: u8,
}

// The station at a socket: its records, and what the host of the socket keeps.
#[derive(Clone, Copy)]
pub struct StationEnd {
    pub links: [Link; 8],
    pub host: StationHost,
}

// A device, and what its host keeps.
#[derive(Clone, Copy)]
pub struct DeviceHost {
    pub link: Link,
    // The octets of its message.
    pub length: usize,
    // Acks and acknowledgements that are due.
    pub acks: u32,
    pub acknowledgements: u32,
    // SegN of its message, and the segment that it sends next.
    pub last: u16,
    pub segment: u16,
}

// A frame that is to be sent.
#[derive(Clone, Copy)]
pub enum Sending {
    Open,
    Ack,
    Close {
        reason: u8,
    },
    Acknowledgement(TransactionNumber),
    Segment {
        number: TransactionNumber,
        index: u16,
    },
}

// An end after it sent what it had to send, and the frame; none where it had nothing to send.
#[derive(Clone, Copy)]
pub struct Next<E> {
    pub end: E,
    pub sending: Option<Sending>,
}

// One more is due.
fn one_more(due: u32) -> u32
    ensures { result ≡ one_more due }
{
    due.saturating_add(1)
}

// One that was due is sent.
fn one_fewer(due: u32) -> u32
    ensures { result ≡ one_fewer due }
{
    due.saturating_sub(1)
}

// The acknowledgement of the message that was delivered last.
fn acknowledgement_of(last: Option<TransactionNumber>) -> Option<Sending>
    ensures { result ≡ acknowledgement_of last }
{
    last.map(Sending::Acknowledgement)
}

// On an open link: an acknowledgement that is due, or else a segment of the message that is outstanding.
fn open_sending(link: Link, due: u32, segment: u16) -> Option<Sending>
    ensures { result ≡ open_sending link due segment }
{
    if 1 <= due {
        acknowledgement_of(link.last)
    } else if link.outstanding {
        Some(Sending::Segment {
            number: link.next,
            index: segment,
        })
    } else {
        None
    }
}
