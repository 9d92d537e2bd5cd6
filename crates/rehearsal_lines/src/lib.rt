// The lines of a rehearsal: what one says, and what is written where it is refused.
#![tactic(auto)]

mod decimals;
mod settings;
mod writing;

ghost use Rattle.std.specs.Prelude.{◌≡◌};
ghost use Rattle.log_lines.specs.Lines.{is_passed};
ghost use Rattle.rehearsal_lines.specs.Lines.{module_of, module_room, line_of, room_after};

use octets::LONGEST_MESSAGE;
use transactions::Socket;
pub use writing::write_refused;

// What a line says.
#[derive(Clone, Copy)]
pub enum Line {
    // A module at a socket, its Link ID, and how many octets of its message now stand at the start of the room.
    Module {
        socket: Socket,
        id: u32,
        length: usize,
    },
    // The channel: its seed, and of a hundred how many are lost and how many come twice.
    Channel {
        seed: u32,
        lost: u8,
        repeated: u8,
    },
    // A comment, or nothing at all.
    Passed,
    Other,
}

// The longest line of a module: with the longest message.
pub const LONGEST: usize = 11 + 2 * LONGEST_MESSAGE;

// A line that is neither passed over nor the channel's: an opening line of a log, a space, and the digits of a message.
fn read_module(line: &[u8], room: &mut [u8]) -> Line
    ensures { (result ≡ module_of line.now room.old)
        × (room.new ≡ module_room line.now room.old) }
{
    if line.len() < 13 || LONGEST < line.len() || line[10] != b' ' {
        return Line::Other;
    }
    let Some(opening) = log_lines::read_opening(&line[..10]) else {
        return Line::Other;
    };
    let Ok(length) = hexadecimal::decode(&line[11..], room) else {
        return Line::Other;
    };
    Line::Module {
        socket: opening.socket,
        id: opening.id,
        length,
    }
}

fn is_passed(line: &[u8]) -> bool
    ensures { result ≡ is_passed line.now }
{
    matches!(line, [] | [b'#', ..])
}

// Reads a line of any length and content. A module's message goes to the room; where the line is none, or its message is longer than the room,
// the room is as it was.
pub fn read_line(line: &[u8], room: &mut [u8]) -> Line
    ensures { (result ≡ line_of line.now room.old)
        × (room.new ≡ room_after line.now room.old) }
{
    if is_passed(line) {
        return Line::Passed;
    }
    match line.strip_prefix(b"channel ") {
        Some(settings) => settings::read_settings(settings),
        None => read_module(line, room),
    }
}
