// A line of input of any length, held in 64 characters so that it is imported as the whole line would be.
#![tactic(auto)]

ghost use Rattle.std.specs.Prelude.{true, false, ◌≡◌, ◌≤◌, length};
ghost use Rattle.held_line.specs.Held.{is_digit};
ghost use Rattle.held_line.specs.Lines.{empty_line, held_if, held_character, held_piece, settled, begun};

// The line so far.
// Stays an array with a count beside: the record is copied whole, and what `held_piece` says is promised for every record, also one whose count is over 64.
#[derive(Clone, Copy)]
pub struct HeldLine {
    pub characters: [u8; 64],
    // Characters that are held, at the start.
    pub count: usize,
    // Whether a carriage return came last. It is held once another character or the end of input follows, and never before a newline.
    pub returned: bool,
}

fn is_digit(character: u8) -> bool
    ensures { result ≡ is_digit character }
{
    hexadecimal::value(character) <= 15
}

impl HeldLine {
    // Holds one character more. Behind 64 a digit after digits takes one away, so that their number stays even or odd.
    fn hold(&mut self, character: u8)
        ensures { self.new ≡ held_if self.old true character }
    {
        self.returned = false;
        if self.count < 64 {
            self.characters[self.count] = character;
            self.count += 1;
        } else if self.count == 64 && is_digit(self.characters[63]) {
            if is_digit(character) {
                self.count = 63;
            } else {
                self.characters[63] = character;
            }
        }
    }

    // Holds a carriage return that came last.
    fn hold_return(&mut self)
        ensures { self.new ≡ settled self.old }
    {
        if self.returned {
            self.hold(b'\r');
        }
    }

    // Takes one character more: a carriage return isn't held yet.
    fn take(&mut self, character: u8)
        ensures { self.new ≡ held_character self.old character }
    {
        self.hold_return();
        if character == b'\r' {
            self.returned = true;
        } else {
            self.hold(character);
        }
    }
}

pub fn empty_line() -> HeldLine
    ensures { result ≡ empty_line }
{
    HeldLine {
        characters: [0u8; 64],
        count: 0,
        returned: false,
    }
}

// Holds a piece more of a line, character by character.
fn hold_each(mut line: HeldLine, piece: &[u8]) -> HeldLine
    ensures { result ≡ held_piece line piece.now }
{
    for character in piece {
        line.take(*character);
    }
    line
}

// The same by one copy: the piece is the first of its line, and short.
fn hold_short(line: HeldLine, piece: &[u8]) -> HeldLine
    requires { (line.count ≡ 0) × (line.returned ≡ false) × (length piece.now ≤ 64) }
    ensures { result ≡ held_piece line piece.now }
{
    let length = piece.len();
    if length == 0 {
        return line;
    }
    let last = length - 1;
    let returned = piece[last] == b'\r';
    let count = if returned { last } else { length };
    let mut characters = line.characters;
    octet_parts::copy(&mut characters, 0, piece, 0, count);
    HeldLine {
        characters,
        count,
        returned,
    }
}

// Holds a piece more of a line.
pub fn hold_piece(line: HeldLine, piece: &[u8]) -> HeldLine
    ensures { result ≡ held_piece line piece.now }
{
    if line.count == 0 && !line.returned && piece.len() <= 64 {
        return hold_short(line, piece);
    }
    hold_each(line, piece)
}

// At the end of input a carriage return is part of the line.
pub fn settle(mut line: HeldLine) -> HeldLine
    ensures { result ≡ settled line }
{
    line.hold_return();
    line
}

// Not 0 where the line so far has characters.
// Stays a number: it goes to `lines::is_whole`, which takes a number of characters.
pub fn begun(line: HeldLine) -> usize
    ensures { result ≡ begun line }
{
    if line.returned { 1 } else { line.count }
}
