// What is kept between lines, and an operation on it by its two letters.
use crate::answers::{Answer, letter, malformed};
use crate::messages::Viewed;
use crate::sessions::Session;
use crate::storages::{BUFFER, OUTPUT};
use crate::{
    beacons, filters, messages, records, shapes, station_calls, storages, transfers, writers,
};
use beacon::{IvState, SecurityState};
use links::Link;
use octets::octet_at;
use proxy::Transfer;
use proxy_filter::Filter;

// All that is kept but the station's area, storage A, which is lent.
#[derive(Drop)]
pub(super) struct Held {
    links: [Link; 8],
    transfer: Transfer,
    filter: Filter,
    security: SecurityState,
    viewed: Viewed,
    // Storage B, the proxy buffer.
    buffer: [u8; BUFFER],
    // Storage O.
    output: [u8; OUTPUT],
    session: Session,
}

// The hash goes on over the characters of an answer, its newline left out.
fn hash_answer(hash: u32, answer: Answer) -> u32 {
    let mut text = [0u8; 512];
    let Ok(n) = answer.write(&mut text) else {
        return hash;
    };
    let Some([characters @ .., _newline]) = text.get(..n) else {
        return hash;
    };
    script::hash(hash, characters)
}

impl Held {
    // The start: all links free and blank, disconnected, a new filter, phase 0 and index 0.
    pub(super) fn new() -> Held {
        Held {
            links: link_records::blank_links(),
            transfer: proxy_connection::new_transfer(),
            filter: Filter::new(),
            security: SecurityState {
                phase: 0,
                iv: IvState {
                    index: 0,
                    updating: false,
                },
            },
            viewed: Viewed::new(),
            buffer: [0u8; BUFFER],
            output: [0u8; OUTPUT],
            session: Session::new(),
        }
    }

    // The hash of the characters of what shows the state.
    fn hash_state(&self) -> u32 {
        let shown = [
            records::show_all(&self.links),
            transfers::show(self.transfer),
            filters::show(self.filter),
            beacons::show(self.security),
            self.viewed.show(),
        ];
        shown
            .iter()
            .fold(1, |hash, answer| hash_answer(hash, *answer))
    }

    // The hash of everything: the state and storages A, B and O, then the device's record and storage E.
    fn hash_all(&self, area: &[u8]) -> Answer {
        let mut h = script::hash(self.hash_state(), area);
        h = script::hash(h, &self.buffer);
        h = script::hash(h, &self.output);
        h = hash_answer(h, self.session.show());
        letter(b'H').long(self.session.hash_area(h))
    }

    // Everything as at start, or the hash of everything.
    fn perform_whole(&mut self, second: u8, area: &mut [u8]) -> Answer {
        if second == b'Z' {
            *self = Held::new();
            return storages::fill(0, area);
        }
        self.hash_all(area)
    }

    // An operation by its two letters. `shapes::is_operation` has said before that they name one.
    fn perform(&mut self, first: u8, second: u8, x: &[u8], area: &mut [u8]) -> Answer {
        match (first, second) {
            // Storages A, B and O have no operations of these letters.
            (b'B', b'R') => beacons::hear(&mut self.security, x),
            (b'O', b'P') => station_calls::open(&mut self.links, x),
            (b'A', _) => storages::perform(second, x, area),
            (b'B', _) => storages::perform(second, x, &mut self.buffer),
            (b'O', _) => storages::perform(second, x, &mut self.output),
            (b'C', b'K') => writers::check_octet(x),
            (b'C', _) => station_calls::close(&mut self.links, x),
            (b'S', b'G') => writers::last_segment(x),
            (b'S', _) => station_calls::send(&mut self.links, x),
            (b'X', b'R') => transfers::read(&mut self.transfer, x, &mut self.buffer),
            (b'W', _) | (b'X', b'W') => writers::perform(second, x, &mut self.output),
            (b'X', _) => transfers::perform(second, &mut self.transfer, x),
            (b'D' | b'E', _) => self.session.perform(first, second, x),
            (b'F', _) => filters::perform(second, &mut self.filter, x),
            (b'K', _) => beacons::perform(second, &mut self.security, x),
            (b'L', _) => records::perform(second, &mut self.links, x),
            (b'R', _) => station_calls::receive(&mut self.links, x, area),
            (b'V', _) => self.viewed.perform(second, x),
            (b'Z', _) => self.perform_whole(second, area),
            _ => messages::read(x),
        }
    }

    // The operation of a line, if it is one.
    pub(super) fn perform_line(&mut self, line: &[u8], area: &mut [u8]) -> Answer {
        let mut octets = [0u8; script::LONGEST / 2];
        let Ok(n) = script::read_arguments(line, &mut octets) else {
            return malformed();
        };
        let Some(x) = octets.get(..n) else {
            return malformed();
        };
        let first = octet_at(line, 0);
        let second = octet_at(line, 1);
        if shapes::is_operation(first, second, x) {
            return self.perform(first, second, x, area);
        }
        malformed()
    }
}
