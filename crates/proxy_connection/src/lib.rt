// Proxy transfer: connected and disconnected, and the test for a transfer that is not bad.
#![tactic(auto)]

ghost use Rattle.std.specs.Prelude.{◌≡◌, true, false};
ghost use Rattle.proxy.specs.Transfers.{empty, is_good, set_connected};

use proxy::{BadState, ConnectionSet, Transfer};

fn with_nothing(connected: bool) -> Transfer
    ensures { result ≡ empty connected }
{
    Transfer {
        connected,
        half: None,
    }
}

// A transfer at start: disconnected.
pub fn new_transfer() -> Transfer
    ensures { result ≡ empty false }
{
    with_nothing(false)
}

// Whether a transfer is not bad.
#[tactic(auto, using(octets::proofs::Tests::tests), unfolding(proxy::specs::Transfers::is_good))]
pub fn is_good(transfer: Transfer) -> bool
    ensures { result ≡ is_good transfer }
{
    transfer.half.is_none_or(|half| {
        transfer.connected && half.kind <= 3 && octets::is_length(half.length as usize)
    })
}

#[tactic(auto, unfolding(proxy::specs::Transfers::set_connected))]
fn set_connected(connected: bool, transfer: Transfer) -> ConnectionSet
    ensures { result ≡ set_connected connected transfer }
{
    if is_good(transfer) {
        return ConnectionSet {
            transfer: with_nothing(connected),
            answer: Ok(()),
        };
    }
    ConnectionSet {
        transfer,
        answer: Err(BadState),
    }
}

// Connects, with nothing half-received.
pub fn connect(transfer: Transfer) -> ConnectionSet
    ensures { result ≡ set_connected true transfer }
{
    set_connected(true, transfer)
}

// Disconnects, and drops what is half-received.
pub fn disconnect(transfer: Transfer) -> ConnectionSet
    ensures { result ≡ set_connected false transfer }
{
    set_connected(false, transfer)
}
