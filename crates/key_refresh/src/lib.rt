// The local calls of a key refresh: it is started here, or its phase set here.
#![tactic(auto)]

ghost use Rattle.std.specs.Prelude.{◌≡◌};
ghost use Rattle.beacon.specs.Beacons.{at_phase, started, set};

use beacon::{BeaconAnswer, BeaconRefusal, Heard, SecurityState};

fn at_phase(state: SecurityState, phase: u8, revoke: bool) -> Heard
    ensures { result ≡ at_phase state phase revoke }
{
    Heard {
        state: SecurityState { phase, ..state },
        answer: Ok(BeaconAnswer::Moved { revoke }),
    }
}

// Starts a key refresh here.
#[tactic(auto, using(octets::proofs::Tests::tests), unfolding(beacon::specs::Beacons::started))]
pub fn start_key_refresh(state: SecurityState) -> Heard
    ensures { result ≡ started state }
{
    if 2 < state.phase {
        return state.refuse(BeaconRefusal::BadState);
    }
    if state.phase == 0 {
        return at_phase(state, 1, false);
    }
    state.refuse(BeaconRefusal::NotAllowed)
}

// Sets the key refresh phase to 2 or 3 here. The target stays a number: 56 tells those that are neither (set-table).
#[tactic(auto, using(octets::proofs::Tests::tests), unfolding(beacon::specs::Beacons::set))]
pub fn set_phase(state: SecurityState, target: u8) -> Heard
    ensures { result ≡ set state target }
{
    if 2 < state.phase {
        return state.refuse(BeaconRefusal::BadState);
    }
    if state.phase < 1 {
        return state.refuse(BeaconRefusal::NotAllowed);
    }
    if target == 2 {
        return at_phase(state, 2, false);
    }
    if target == 3 {
        return at_phase(state, 0, true);
    }
    state.refuse(BeaconRefusal::NotAllowed)
}
