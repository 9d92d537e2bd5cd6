// Beacons, and the key and IV state.
use crate::answers::{Answer, done, letter, refused};
use crate::shapes::behind;
use beacon::{
    BeaconAnswer, BeaconRefusal, Heard, Hearing, IvReport, IvState, Key, SecurityState, Subnet,
};
use octets::{octet_at, read32};

fn set(state: &mut SecurityState, x: &[u8]) -> Answer {
    *state = SecurityState {
        phase: octet_at(x, 0),
        iv: IvState {
            index: read32(x, 1),
            updating: octet_at(x, 5) == 1,
        },
    };
    done()
}

pub(super) fn show(state: SecurityState) -> Answer {
    letter(b'K')
        .octet(state.phase)
        .long(state.iv.index)
        .flag(state.iv.updating)
}

fn put_hash(answer: Answer, beacon: &[u8], hash: Option<usize>) -> Answer {
    match hash {
        None => answer.octet(0).long(0),
        Some(place) => answer.octet(1).part(beacon, place, 4),
    }
}

fn unprovisioned(uuid: usize, oob: u16, hash: Option<usize>, beacon: &[u8]) -> Answer {
    put_hash(letter(b'U').part(beacon, uuid, 16).pair(oob), beacon, hash)
}

fn report_octet(report: Option<IvReport>) -> u8 {
    match report {
        None => 0,
        Some(IvReport::ResetSequence) => 1,
        Some(IvReport::RecoveryWanted) => 2,
    }
}

fn answer_of(answered: Result<BeaconAnswer, BeaconRefusal>, beacon: &[u8]) -> Answer {
    match answered {
        Ok(BeaconAnswer::Unprovisioned { uuid, oob, hash }) => {
            unprovisioned(uuid, oob, hash, beacon)
        }
        Ok(BeaconAnswer::Secure { revoke, iv }) => {
            letter(b'B').flag(revoke).octet(report_octet(iv))
        }
        Ok(BeaconAnswer::Moved { revoke }) => letter(b'K').flag(revoke),
        Err(refusal) => refused(refusal_numbers::of_beacon(refusal)),
    }
}

fn after(state: &mut SecurityState, heard: Heard, beacon: &[u8]) -> Answer {
    *state = heard.state;
    answer_of(heard.answer, beacon)
}

fn hearing_of(x: &[u8]) -> Hearing {
    let key = if octet_at(x, 1) == 0 {
        Key::Old
    } else {
        Key::New
    };
    let subnet = if octet_at(x, 2) == 0 {
        Subnet::Primary
    } else {
        Subnet::Secondary
    };
    Hearing {
        authentic: octet_at(x, 0) == 1,
        key,
        subnet,
    }
}

// A beacon is heard.
pub(super) fn hear(state: &mut SecurityState, x: &[u8]) -> Answer {
    let beacon = behind(x, 3);
    let heard = beacon_hearing::hear_beacon(*state, hearing_of(x), beacon);
    after(state, heard, beacon)
}

// The state set and shown, and the local key calls, by the second letter.
pub(super) fn perform(second: u8, state: &mut SecurityState, x: &[u8]) -> Answer {
    match second {
        b'S' => set(state, x),
        b'D' => show(*state),
        b'I' => {
            let heard = key_refresh::start_key_refresh(*state);
            after(state, heard, x)
        }
        _ => {
            let heard = key_refresh::set_phase(*state, octet_at(x, 0));
            after(state, heard, x)
        }
    }
}
