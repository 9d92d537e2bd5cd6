// A view of a message: the lent octets and the place reached. It reads one field at a time, by `read_field`, which takes slice and place.
#![tactic(auto)]

ghost use Rattle.std.specs.Prelude.{◌≡◌};
ghost use Rattle.message_view.specs.Reading.{size_of, value_at, field_at};

use octets::{octet_at, read16};
use provisioning::Field;

#[derive(Clone, Copy)]
pub struct View<'a> {
    pub octets: &'a [u8],
    pub place: usize,
}

// What is to be read: an octet, a number of two octets, or a field of some length.
#[derive(Clone, Copy)]
pub enum Wanted {
    Octet,
    Pair,
    Long(usize),
}

// What was read.
#[derive(Clone, Copy)]
pub enum FieldRead {
    Octet(u8),
    Pair(u16),
    Long(Field),
}

// The field ends behind the message: refusal 44.
#[derive(Clone, Copy, Debug, PartialEq, Eq)]
pub struct PastEnd;

// What was read, and the place behind it: the same place where it is past the end.
#[derive(Clone, Copy)]
pub struct Step {
    pub next: usize,
    pub field: Result<FieldRead, PastEnd>,
}

fn size_of(wanted: Wanted) -> usize
    ensures { result ≡ size_of wanted }
{
    match wanted {
        Wanted::Octet => 1,
        Wanted::Pair => 2,
        Wanted::Long(n) => n,
    }
}

fn value_at(message: &[u8], place: usize, wanted: Wanted) -> FieldRead
    ensures { result ≡ value_at message.now place wanted }
{
    match wanted {
        Wanted::Octet => FieldRead::Octet(octet_at(message, place)),
        Wanted::Pair => FieldRead::Pair(read16(message, place)),
        Wanted::Long(n) => FieldRead::Long(Field { place, length: n }),
    }
}

// What stands at a place of a message, and the place behind it.
pub fn read_field(message: &[u8], place: usize, wanted: Wanted) -> Step
    ensures { result ≡ field_at message.now place wanted }
{
    let size = size_of(wanted);
    if message.len() < place || message.len() - place < size {
        return Step {
            next: place,
            field: Err(PastEnd),
        };
    }
    Step {
        next: place + size,
        field: Ok(value_at(message, place, wanted)),
    }
}

// A view of a message from its first octet on.
pub fn new<'a>(octets: &'a [u8]) -> View<'a>
    ensures { (result.octets ≡ octets.entry) × (result.place ≡ 0) }
{
    View { octets, place: 0 }
}

// The next field of a view, which moves on behind it; past the end it stays where it is.
pub fn take<'s, 'a>(view: &'s mut View<'a>, wanted: Wanted) -> Result<FieldRead, PastEnd>
    ensures { (result ≡ (field_at view.old.octets.now view.old.place wanted).field)
        × (view.new.octets ≡ view.old.octets)
        × (view.new.place ≡ (field_at view.old.octets.now view.old.place wanted).next) }
{
    let step = read_field(view.octets, view.place, wanted);
    view.place = step.next;
    step.field
}

// What stands at a place of a message, read through a view that begins there; and the place that the view has reached.
pub fn take_at(octets: &[u8], place: usize, wanted: Wanted) -> Step
    ensures { result ≡ field_at octets.now place wanted }
{
    let mut view = View { octets, place };
    let field = take(&mut view, wanted);
    Step {
        next: view.place,
        field,
    }
}
