// A beacon that was heard. The key rule and the IV rule are kept apart: neither reads the other's state.
#![tactic(auto)]

ghost use Rattle.std.specs.Prelude.{◌≡◌};
ghost use Rattle.beacon.specs.Rules.{key_wrong, key_rule, out_of_window, iv_rule};
ghost use Rattle.beacon.specs.Beacons.{unprovisioned, moved, secure, heard};

use beacon::{
    BeaconAnswer, BeaconRefusal, Heard, Hearing, IvReport, IvState, IvStep, Key, KeyStep,
    SecurityState, Subnet,
};
use octets::{octet_at, read16, read32};

fn is_wrong_key(phase: u8, key: Key) -> bool
    ensures { result ≡ key_wrong phase key }
{
    match key {
        Key::Old => phase == 2,
        Key::New => phase == 0,
    }
}

fn key_rule(phase: u8, key: Key, refresh: bool) -> KeyStep
    ensures { result ≡ key_rule phase key refresh }
{
    match (key, refresh) {
        (Key::Old, _) => KeyStep {
            phase,
            revoke: false,
        },
        (Key::New, true) => KeyStep {
            phase: 2,
            revoke: false,
        },
        (Key::New, false) => KeyStep {
            phase: 0,
            revoke: true,
        },
    }
}

// The sums are taken in 64 bits, so that nothing wraps at the largest index.
#[tactic(auto, using(octets::proofs::Tests::tests), unfolding(beacon::specs::Rules::out_of_window))]
fn is_out_of_window(known: u32, subnet: Subnet, received: u32) -> bool
    ensures { result ≡ out_of_window known subnet received }
{
    let i = u64::from(known);
    let b = u64::from(received);
    b < i || i + 43 <= b || (subnet == Subnet::Secondary && i < b)
}

#[tactic(auto, using(octets::proofs::Tests::tests), unfolding(beacon::specs::Rules::iv_rule))]
fn iv_rule(iv: IvState, received: u32, update: bool) -> IvStep
    ensures { result ≡ iv_rule iv received update }
{
    let i = u64::from(iv.index);
    let b = u64::from(received);
    if !iv.updating && b == i + 1 && update {
        return IvStep {
            iv: IvState {
                index: received,
                updating: true,
            },
            report: None,
        };
    }
    if iv.updating && b == i && !update {
        return IvStep {
            iv: IvState {
                updating: false,
                ..iv
            },
            report: Some(IvReport::ResetSequence),
        };
    }
    let from = if iv.updating { i + 1 } else { i + 2 };
    IvStep {
        iv,
        report: (from <= b).then_some(IvReport::RecoveryWanted),
    }
}

#[tactic(auto, using(octets::proofs::Tests::tests), unfolding(beacon::specs::Beacons::unprovisioned))]
fn read_unprovisioned(state: SecurityState, beacon: &[u8]) -> Heard
    ensures { result ≡ unprovisioned state beacon.now }
{
    let hash = match beacon.len() {
        19 => None,
        23 => Some(19),
        _ => return state.refuse(BeaconRefusal::WrongLength),
    };
    Heard {
        state,
        answer: Ok(BeaconAnswer::Unprovisioned {
            uuid: 1,
            oob: read16(beacon, 17),
            hash,
        }),
    }
}

#[tactic(auto, unfolding(beacon::specs::Beacons::moved))]
fn move_state(state: SecurityState, hearing: Hearing, beacon: &[u8]) -> Heard
    ensures { result ≡ moved state hearing beacon.now }
{
    let flags = octet_at(beacon, 1);
    let received = read32(beacon, 10);
    let KeyStep { phase, revoke } = key_rule(state.phase, hearing.key, flags % 2 == 1);
    let IvStep { iv, report } = iv_rule(state.iv, received, flags / 2 % 2 == 1);
    Heard {
        state: SecurityState { phase, iv },
        answer: Ok(BeaconAnswer::Secure { revoke, iv: report }),
    }
}

#[tactic(auto, using(octets::proofs::Tests::tests), unfolding(beacon::specs::Beacons::secure))]
fn read_secure(state: SecurityState, hearing: Hearing, beacon: &[u8]) -> Heard
    ensures { result ≡ secure state hearing beacon.now }
{
    if beacon.len() != 22 {
        return state.refuse(BeaconRefusal::WrongLength);
    }
    if !hearing.authentic {
        return state.refuse(BeaconRefusal::NotAuthentic);
    }
    if is_wrong_key(state.phase, hearing.key) {
        return state.refuse(BeaconRefusal::WrongKey);
    }
    if is_out_of_window(state.iv.index, hearing.subnet, read32(beacon, 10)) {
        return state.refuse(BeaconRefusal::OutOfWindow);
    }
    move_state(state, hearing, beacon)
}

// A beacon of any octets, with what the host says of it.
#[tactic(auto, using(octets::proofs::Tests::tests), unfolding(beacon::specs::Beacons::heard))]
pub fn hear_beacon(state: SecurityState, hearing: Hearing, beacon: &[u8]) -> Heard
    ensures { result ≡ heard state hearing beacon.now }
{
    if 2 < state.phase {
        return state.refuse(BeaconRefusal::BadState);
    }
    match beacon {
        [] => state.refuse(BeaconRefusal::Empty),
        [0, ..] => read_unprovisioned(state, beacon),
        [1, ..] => read_secure(state, hearing, beacon),
        _ => state.refuse(BeaconRefusal::UnknownType),
    }
}
