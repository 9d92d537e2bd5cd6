// The operations of a storage: fill, write, show and hash.
use crate::answers::{Answer, done, letter, malformed};
use crate::shapes::behind;
use octets::{octet_at, read16};

// How many octets storage A has.
pub(super) const AREA: usize = 0x2E00;

// Storage O.
pub(super) const OUTPUT: usize = 0x1000;

// Storages B and E; a view is over at most so many, too.
pub(super) const BUFFER: usize = 0x0600;

pub(super) fn fill(octet: u8, storage: &mut [u8]) -> Answer {
    storage.fill(octet);
    done()
}

fn write(x: &[u8], storage: &mut [u8]) -> Answer {
    let place = usize::from(read16(x, 0));
    let written = behind(x, 2);
    if octet_parts::copy(storage, place, written, 0, written.len()) {
        return done();
    }
    malformed()
}

fn show(x: &[u8], storage: &[u8]) -> Answer {
    let place = usize::from(read16(x, 0));
    let count = read16(x, 2);
    if 0x0FA0 < count || storage.len() < place + usize::from(count) {
        return malformed();
    }
    letter(b'H').part(storage, place, count)
}

// An operation by its second letter; the first names the storage.
pub(super) fn perform(second: u8, x: &[u8], storage: &mut [u8]) -> Answer {
    match second {
        b'F' => fill(octet_at(x, 0), storage),
        b'W' => write(x, storage),
        b'D' => show(x, storage),
        _ => letter(b'H').long(script::hash(1, storage)),
    }
}
