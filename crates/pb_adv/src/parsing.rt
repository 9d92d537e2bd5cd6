// A frame taken apart.
ghost use Rattle.std.specs.Prelude.{◌≡◌, ◌≤◌, eqb, length};
ghost use Rattle.pb_adv.specs.Frame.{segment_from, is_start, start_of, acknowledgement_of, continuation_of, control_of, parsed};

use super::{Frame, FrameRefusal, Segment, SegmentHeader};
use octets::{is_length, octet_at, read16, read32};
use transactions::{TransactionNumber, last_segment};

fn segment_from(frame: &[u8], header: SegmentHeader, from: usize) -> Result<Frame, FrameRefusal>
    requires { from ≤ length frame.now }
    ensures { result ≡ segment_from frame.now header from }
{
    Ok(Frame::Segment(Segment {
        id: read32(frame, 0),
        number: TransactionNumber(octet_at(frame, 4)),
        header,
        from,
        count: frame.len() - from,
    }))
}

#[tactic(auto, using(octets::proofs::Tests::tests), unfolding(crate::specs::Frame::is_start))]
fn is_start(frame: &[u8]) -> bool
    ensures { result ≡ is_start frame.now }
{
    let length = read16(frame, 6);
    is_length(length as usize)
        && (octet_at(frame, 5) / 4) as u16 == last_segment(length)
        && frame.len() == 9 + (length as usize).min(20)
}

#[tactic(auto, using(octets::proofs::Tests::tests))]
fn parse_start(frame: &[u8]) -> Result<Frame, FrameRefusal>
    ensures { result ≡ start_of frame.now }
{
    if !is_start(frame) {
        return Err(FrameRefusal::Malformed);
    }
    let header = SegmentHeader::Start {
        length: read16(frame, 6),
        check: octet_at(frame, 8),
    };
    segment_from(frame, header, 9)
}

#[tactic(auto, using(octets::proofs::Tests::tests))]
fn parse_acknowledgement(frame: &[u8]) -> Result<Frame, FrameRefusal>
    ensures { result ≡ acknowledgement_of frame.now }
{
    if octet_at(frame, 5) / 4 != 0 || frame.len() != 6 {
        return Err(FrameRefusal::Malformed);
    }
    Ok(Frame::Acknowledgement {
        id: read32(frame, 0),
        number: TransactionNumber(octet_at(frame, 4)),
    })
}

#[tactic(auto, using(octets::proofs::Tests::tests))]
fn parse_continuation(frame: &[u8]) -> Result<Frame, FrameRefusal>
    ensures { result ≡ continuation_of frame.now }
{
    let index = octet_at(frame, 5) / 4;
    if index < 1 || frame.len() < 7 {
        return Err(FrameRefusal::Malformed);
    }
    segment_from(frame, SegmentHeader::Continuation { index }, 6)
}

// Whether a control frame with the opcode of a Close is one: its number is ignored.
fn is_close(frame: &[u8]) -> bool
    ensures { result ≡ eqb (length frame.now) 7 }
{
    frame.len() == 7
}

#[tactic(auto, using(octets::proofs::Tests::tests), unfolding(crate::specs::Frame::control_of))]
fn parse_control(frame: &[u8]) -> Result<Frame, FrameRefusal>
    ensures { result ≡ control_of frame.now }
{
    let id = read32(frame, 0);
    match octet_at(frame, 5) / 4 {
        0 if frame.len() == 22 => Ok(Frame::Open { id, uuid: 6 }),
        1 if frame.len() == 6 => Ok(Frame::Ack { id }),
        2 if is_close(frame) => Ok(Frame::Close {
            id,
            reason: octet_at(frame, 6),
        }),
        0..=2 => Err(FrameRefusal::Malformed),
        _ => Err(FrameRefusal::UnknownOpcode),
    }
}

// What any octets say as a frame, or refusal 1 or 2.
#[tactic(auto, using(octets::proofs::Tests::tests), unfolding(crate::specs::Frame::parsed))]
pub fn parse(frame: &[u8]) -> Result<Frame, FrameRefusal>
    ensures { result ≡ parsed frame.now }
{
    if !(6..=29).contains(&frame.len()) {
        return Err(FrameRefusal::Malformed);
    }
    match frame[5] % 4 {
        0 => parse_start(frame),
        1 => parse_acknowledgement(frame),
        2 => parse_continuation(frame),
        _ => parse_control(frame),
    }
}
