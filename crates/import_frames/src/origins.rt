// Where a frame comes from: the record that has its Link ID, and what a row says of it.
ghost use Rattle.std.specs.Prelude.{◌≡◌};
ghost use Rattle.links.specs.Links.{provisioner};
ghost use Rattle.links.specs.Promises.{addressed};
ghost use Rattle.import_frames.specs.Origins.{FoundWithin, socket_field, number_field, frame_origin};

use line_fields::Field;
use links::Link;
use pb_adv::{Frame, FrameRefusal};
use stock_table::Origin;

// The record in use that has the frame's Link ID.
// Its place stays a number, with `FoundWithin` beside: what a frame does is defined on numbered places, and with a type of its own each contract would turn it
// back into a number.
pub fn find_record(links: [Link; 8], parsed: Result<Frame, FrameRefusal>) -> Option<usize>
    ensures { (result ≡ addressed provisioner links parsed) × FoundWithin result }
{
    match parsed {
        Ok(frame) => link_search::find_link(links, frame.id()),
        Err(_) => None,
    }
}

fn socket_field(found: Option<usize>) -> Field
    requires { FoundWithin found }
    ensures { result ≡ socket_field found }
{
    match found {
        Some(place) => Field::Decimal(place as u64 + 1),
        None => Field::Empty,
    }
}

fn number_field(frame: Frame) -> Field
    ensures { result ≡ number_field frame }
{
    match frame {
        Frame::Segment(segment) => Field::Octet(segment.number.0),
        Frame::Acknowledgement { number, .. } => Field::Octet(number.0),
        Frame::Open { .. } | Frame::Ack { .. } | Frame::Close { .. } => Field::Empty,
    }
}

// What a row says of a frame's origin.
pub fn frame_origin(links: [Link; 8], parsed: Result<Frame, FrameRefusal>) -> Origin
    ensures { result ≡ frame_origin (addressed provisioner links parsed) parsed }
{
    let Ok(frame) = parsed else {
        return Origin::default();
    };
    Origin {
        socket: socket_field(find_record(links, parsed)),
        id: Field::Number(frame.id()),
        number: number_field(frame),
    }
}
