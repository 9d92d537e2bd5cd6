// The device's end: its record set and shown, its own UUID, its area as a storage, and its calls.
use crate::answers::{Answer, done, letter, malformed};
use crate::shapes::behind;
use crate::storages::BUFFER;
use crate::{records, station_calls, storages};
use arrayvec::ArrayVec;
use link_steps::Stepped;
use links::Link;
use octets::read16;

// A longer UUID than this is not held.
const LONGEST_UUID: usize = 0x20;

// What is kept of the device's end: its record, its own UUID, of any length up to 32 octets, and storage E, its area.
#[derive(Drop)]
pub(super) struct Session {
    area: [u8; BUFFER],
    own: ArrayVec<u8, LONGEST_UUID>,
    link: Link,
}

impl Session {
    // No link, and a UUID of zeros.
    pub(super) fn new() -> Session {
        let mut own = ArrayVec::from([0u8; LONGEST_UUID]);
        own.truncate(device::UUID_LENGTH);
        Session {
            area: [0u8; BUFFER],
            own,
            link: device::new(),
        }
    }

    fn after(&mut self, stepped: Stepped) -> Answer {
        self.link = stepped.link;
        station_calls::answer_of(stepped.answer)
    }

    fn set(&mut self, x: &[u8]) -> Answer {
        self.link = records::link_of(x);
        done()
    }

    pub(super) fn show(&self) -> Answer {
        records::put_record(letter(b'D'), self.link)
    }

    // The UUID is held, of whatever length.
    fn hold_uuid(&mut self, x: &[u8]) -> Answer {
        let Ok(own) = ArrayVec::try_from(x) else {
            return malformed();
        };
        self.own = own;
        done()
    }

    // A frame is received, with the first octets of the area lent.
    fn receive(&mut self, x: &[u8]) -> Answer {
        let lent = usize::from(read16(x, 0));
        let Some(area) = self.area.get_mut(..lent) else {
            return malformed();
        };
        let stepped = device::receive(self.link, self.own.as_slice(), area, behind(x, 2));
        self.after(stepped)
    }

    // An operation by its two letters: of storage E, or of the device's end.
    pub(super) fn perform(&mut self, first: u8, second: u8, x: &[u8]) -> Answer {
        if first == b'E' {
            return storages::perform(second, x, &mut self.area);
        }
        match second {
            b'S' => self.set(x),
            b'D' => self.show(),
            b'U' => self.hold_uuid(x),
            b'R' => self.receive(x),
            b'N' => {
                let stepped = device::send(self.link, usize::from(read16(x, 0)));
                self.after(stepped)
            }
            _ => {
                let stepped = device::close(self.link);
                self.after(stepped)
            }
        }
    }

    // The hash goes on over storage E.
    pub(super) fn hash_area(&self, hash: u32) -> u32 {
        script::hash(hash, &self.area)
    }
}
