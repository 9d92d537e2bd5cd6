// Lines that open a socket.
ghost use Rattle.std.specs.Prelude.{true, ◌≡◌};
ghost use Rattle.log_lines.specs.Lines.{begins_opening, opening_of};

use super::Opening;
use octets::read32;
use transactions::Socket;

// Ten characters that begin with a socket digit and a space.
#[tactic(auto, using(octets::proofs::Tests::tests), unfolding(crate::specs::Lines::begins_opening))]
fn begins_opening(line: &[u8]) -> bool
    ensures { result ≡ begins_opening line.now }
{
    line.len() == 10 && matches!(line[0], b'1'..=b'8') && line[1] == b' '
}

// A line that begins as an opening does.
fn read_begun(line: &[u8]) -> Option<Opening>
    requires { begins_opening line.now ≡ true }
    ensures { result ≡ opening_of line.now }
{
    let mut id = [0u8; 4];
    let Ok(_) = hexadecimal::decode(&line[2..10], &mut id) else {
        return None;
    };
    Some(Opening {
        socket: Socket(line[0] - b'0'),
        id: read32(&id, 0),
    })
}

// What a line says as an opening; none where it is of another form.
pub fn read_opening(line: &[u8]) -> Option<Opening>
    ensures { result ≡ opening_of line.now }
{
    if begins_opening(line) {
        read_begun(line)
    } else {
        None
    }
}
