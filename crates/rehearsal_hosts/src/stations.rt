// The station's host.
ghost use Rattle.std.specs.Prelude.{◌≡◌};
ghost use Rattle.rehearsal_hosts.specs.Hosts.{new_station, with_closes, close_sending, station_sending, station_sent, station_refused, station_notes};

use super::{Sending, StationHost, one_fewer, one_more, open_sending};
use links::{Answer, Link, LinkState, Refusal};

// Nothing acknowledges a Close, so it is sent so often.
const CLOSES: u32 = 3;

// Nothing is due.
pub fn new_station() -> StationHost
    ensures { result ≡ new_station }
{
    StationHost {
        acknowledgements: 0,
        closes: 0,
        reason: 0,
    }
}

// A Close, if one is due.
fn close_sending(host: StationHost) -> Option<Sending>
    ensures { result ≡ close_sending host }
{
    if 1 <= host.closes {
        Some(Sending::Close {
            reason: host.reason,
        })
    } else {
        None
    }
}

// What the station sends at a socket, by its record. The Invite has one segment.
pub fn station_sending(host: StationHost, link: Link) -> Option<Sending>
    ensures { result ≡ station_sending host link }
{
    match link.state {
        LinkState::Free => close_sending(host),
        LinkState::Opening => Some(Sending::Open),
        LinkState::Open => open_sending(link, host.acknowledgements, 0),
    }
}

// The host after a frame was sent.
pub fn station_sent(host: StationHost, sending: Option<Sending>) -> StationHost
    ensures { result ≡ station_sent host sending }
{
    match sending {
        Some(Sending::Acknowledgement(_)) => StationHost {
            acknowledgements: one_fewer(host.acknowledgements),
            ..host
        },
        Some(Sending::Close { .. }) => StationHost {
            closes: one_fewer(host.closes),
            ..host
        },
        _ => host,
    }
}

// The host after a local Close.
pub fn station_closes(host: StationHost, reason: u8) -> StationHost
    ensures { result ≡ with_closes host 3 reason }
{
    StationHost {
        closes: CLOSES,
        reason,
        ..host
    }
}

// A module that is heard on a closed link has not heard the Close.
fn station_refused(host: StationHost, refusal: Refusal) -> StationHost
    ensures { result ≡ station_refused host refusal }
{
    match refusal {
        Refusal::UnknownLink => station_closes(host, host.reason),
        _ => host,
    }
}

// The host after an answer.
pub fn station_notes(host: StationHost, answer: Result<Answer, Refusal>) -> StationHost
    ensures { result ≡ station_notes host answer }
{
    match answer {
        Ok(Answer::Delivered { .. } | Answer::AcknowledgeAgain) => StationHost {
            acknowledgements: one_more(host.acknowledgements),
            ..host
        },
        Ok(_) => host,
        Err(refusal) => station_refused(host, refusal),
    }
}
