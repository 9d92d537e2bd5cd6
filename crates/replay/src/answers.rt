// The answer to a line, field by field as docs/REPLAY.md lists them: two digits are an octet.
use links::Refusal;
use octets::Written;
use script::Outcome;

// Enough for every answer: of a storage at most 4,000 octets are shown, and no frame or piece that is written has more than 514.
const MOST: usize = 4096;

// The longest answer's line: a letter, its octets in two digits each, and a newline.
pub(super) const LONGEST: usize = 2 * MOST + 2;

#[derive(Clone, Copy)]
pub(super) struct Answer {
    // What the line came to. The count in `Values` says how many of the octets there are, which `script` writes; an `ArrayVec` would hold it twice.
    outcome: Outcome,
    octets: [u8; MOST],
}

fn answer_of(outcome: Outcome) -> Answer {
    Answer {
        outcome,
        octets: [0u8; MOST],
    }
}

// An answer of its first character, behind which fields are put.
pub(super) fn letter(letter: u8) -> Answer {
    answer_of(Outcome::Values { letter, count: 0 })
}

pub(super) fn done() -> Answer {
    answer_of(Outcome::Done)
}

pub(super) fn malformed() -> Answer {
    answer_of(Outcome::Malformed)
}

pub(super) fn refused(number: u8) -> Answer {
    answer_of(Outcome::Refused(number))
}

// The refusal of a wrong argument, which has one number wherever it is told.
pub(super) fn wrong_argument() -> Answer {
    refused(refusal_numbers::of_station(Refusal::WrongArgument))
}

impl Answer {
    // A field of 2 digits.
    pub(super) fn octet(self, number: u8) -> Answer {
        self.part(&[number], 0, 1)
    }

    pub(super) fn flag(self, flag: bool) -> Answer {
        self.octet(u8::from(flag))
    }

    // A field of 4 digits.
    pub(super) fn pair(self, number: u16) -> Answer {
        self.part(&number.to_be_bytes(), 0, 2)
    }

    // A field of 8 digits.
    pub(super) fn long(self, number: u32) -> Answer {
        self.part(&number.to_be_bytes(), 0, 4)
    }

    // So many octets of a list, from a place on.
    pub(super) fn part(mut self, source: &[u8], from: usize, count: u16) -> Answer {
        if let Outcome::Values { letter, count: at } = self.outcome {
            let end = at.saturating_add(usize::from(count));
            if end <= MOST {
                octet_parts::copy(&mut self.octets, at, source, from, usize::from(count));
                self.outcome = Outcome::Values { letter, count: end };
            }
        }
        self
    }

    // The answer's line.
    pub(super) fn write(self, output: &mut [u8]) -> Written {
        script::write_outcome(self.outcome, &self.octets, output)
    }
}
