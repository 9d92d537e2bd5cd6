// A device's host.
ghost use Rattle.std.specs.Prelude.{◌≡◌};
ghost use Rattle.rehearsal_hosts.specs.Hosts.{new_device, device_sending, segment_after, device_sent, begun, device_notes};

use super::{DeviceHost, Sending, one_fewer, one_more, open_sending};
use links::{Answer, LinkState, Refusal};

// A device whose message has so many octets: it has no link, and nothing is due.
pub fn new_device(length: usize) -> DeviceHost
    ensures { result ≡ new_device length }
{
    DeviceHost {
        link: device::new(),
        length,
        acks: 0,
        acknowledgements: 0,
        last: 0,
        segment: 0,
    }
}

// What a device sends.
pub fn device_sending(host: DeviceHost) -> Option<Sending>
    ensures { result ≡ device_sending host }
{
    if host.link.state != LinkState::Open {
        return None;
    }
    if 1 <= host.acks {
        return Some(Sending::Ack);
    }
    open_sending(host.link, host.acknowledgements, host.segment)
}

// The segment after one, and the first after the last.
fn segment_after(index: u16, last: u16) -> u16
    ensures { result ≡ segment_after index last }
{
    if index < last { index + 1 } else { 0 }
}

// The host after a frame was sent.
pub fn device_sent(host: DeviceHost, sending: Option<Sending>) -> DeviceHost
    ensures { result ≡ device_sent host sending }
{
    match sending {
        Some(Sending::Ack) => DeviceHost {
            acks: one_fewer(host.acks),
            ..host
        },
        Some(Sending::Acknowledgement(_)) => DeviceHost {
            acknowledgements: one_fewer(host.acknowledgements),
            ..host
        },
        Some(Sending::Segment { index, .. }) => DeviceHost {
            segment: segment_after(index, host.last),
            ..host
        },
        _ => host,
    }
}

// The host after the local Send of its message.
fn begin_message(host: DeviceHost) -> DeviceHost
    ensures { result ≡ begun host }
{
    let stepped = device::send(host.link, host.length);
    let Ok(Answer::Sending { last, .. }) = stepped.answer else {
        return host;
    };
    DeviceHost {
        link: stepped.link,
        last,
        segment: 0,
        ..host
    }
}

// The host after an answer. What is delivered is the Invite, which the device answers with its message.
pub fn device_notes(host: DeviceHost, answer: Result<Answer, Refusal>) -> DeviceHost
    ensures { result ≡ device_notes host answer }
{
    match answer {
        Ok(Answer::Opened | Answer::Already) => DeviceHost {
            acks: one_more(host.acks),
            ..host
        },
        Ok(Answer::AcknowledgeAgain) => DeviceHost {
            acknowledgements: one_more(host.acknowledgements),
            ..host
        },
        Ok(Answer::Delivered { .. }) => begin_message(DeviceHost {
            acknowledgements: one_more(host.acknowledgements),
            ..host
        }),
        _ => host,
    }
}
