// A line that comes in pieces, held in a lent buffer as far as it has room.
#![tactic(auto)]

ghost use Rattle.std.specs.Prelude.{◌≡◌, ◌≤◌, length};
ghost use Rattle.line_buffer.specs.Buffer.{held_after, held_line};

// Holds a piece more of a line, as much as fits; how much the buffer then holds. The line and what is held of it stay apart, here and in the programs that
// lend the line: docs/PROMISES.md promises over both (`held_after`, `held_line`).
pub fn hold(line: &mut [u8], held: usize, piece: &[u8]) -> usize
    ensures { (result ≡ held_after line.old held piece.now)
        × (line.new ≡ held_line line.old held piece.now)
        × (result ≤ length line.old) }
{
    if line.len() <= held {
        return line.len();
    }
    let room = line.len() - held;
    if piece.len() < room {
        octet_parts::copy(line, held, piece, 0, piece.len());
        return held + piece.len();
    }
    octet_parts::copy(line, held, piece, 0, room);
    held + room
}
