// Beacons, and the key refresh phase and IV update state that they move: types, definitions and what is promised of them.
#![tactic(auto)]

ghost use Rattle.std.specs.Prelude.{◌≡◌};
ghost use Rattle.beacon.specs.Beacons.{refusing};

// The IV index known, and whether the IV update is in progress.
#[derive(Clone, Copy)]
pub struct IvState {
    pub index: u32,
    pub updating: bool,
}

// The key refresh phase, 0 to 2, and the IV state.
#[derive(Clone, Copy)]
pub struct SecurityState {
    // Stays a number: phase 3 is a state that refusal 14 tells (heard-table).
    pub phase: u8,
    pub iv: IvState,
}

// The key with which a beacon is authentic.
#[derive(Clone, Copy)]
pub enum Key {
    Old,
    New,
}

#[derive(Clone, Copy, PartialEq, Eq)]
pub enum Subnet {
    Primary,
    Secondary,
}

// What the host says of a beacon.
#[derive(Clone, Copy)]
pub struct Hearing {
    // Stays a flag beside the key: a host may name a key of a beacon that isn't authentic too, and heard-table tells 54 there.
    pub authentic: bool,
    pub key: Key,
    pub subnet: Subnet,
}

#[derive(Clone, Copy)]
pub enum IvReport {
    ResetSequence,
    RecoveryWanted,
}

#[derive(Clone, Copy, Debug, PartialEq, Eq)]
pub enum BeaconRefusal {
    BadState,
    Empty,
    UnknownType,
    WrongLength,
    NotAuthentic,
    WrongKey,
    NotAllowed,
    OutOfWindow,
}

#[derive(Clone, Copy)]
pub enum BeaconAnswer {
    // Type 0: the UUID's 16 octets stand from place uuid on, and the URI hash's 4 from place hash on, if there is one.
    Unprovisioned {
        uuid: usize,
        oob: u16,
        hash: Option<usize>,
    },
    // Type 1: whether the old key is to be revoked, and what the IV rule reports, if it does.
    Secure {
        revoke: bool,
        iv: Option<IvReport>,
    },
    // A local call moved the phase.
    Moved {
        revoke: bool,
    },
}

// The state after a call, and its answer.
// A record of its own, as each call's: one generic record of a state and an answer would call it by one name with all others, and be no plainer.
#[derive(Clone, Copy)]
pub struct Heard {
    pub state: SecurityState,
    pub answer: Result<BeaconAnswer, BeaconRefusal>,
}

// What the key rule gives.
#[derive(Clone, Copy)]
pub struct KeyStep {
    // A number, as that of the state that it becomes.
    pub phase: u8,
    pub revoke: bool,
}

// What the IV rule gives.
#[derive(Clone, Copy)]
pub struct IvStep {
    pub iv: IvState,
    pub report: Option<IvReport>,
}

impl SecurityState {
    // The state as it was, and a refusal.
    pub fn refuse(self, refusal: BeaconRefusal) -> Heard
        ensures { result ≡ refusing self refusal }
    {
        Heard {
            state: self,
            answer: Err(refusal),
        }
    }
}
