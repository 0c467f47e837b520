// The first line of a day's answer.
ghost use Rattle.std.specs.Prelude.{◌≡◌, Some, Ok, Err, MatchResult};
ghost use Rattle.siding.specs.Stands.{state_of};
ghost use Rattle.daybook.specs.Opening.{drawn_from, opening_of, drawn_shown};

use crate::input::{MOST_BYTES, parted};
use refusal::Refusal;
use siding::Siding;
use std::fmt;

// What was drawn up from the sheet: the numbers of its sections and wagons, and its figure.
#[derive(Clone, Copy, PartialEq, Eq, Debug)]
pub struct Drawn {
    pub sections: u16,
    pub wagons: u16,
    pub figure: u32,
}

impl fmt::Display for Drawn {
    ghost output = { λ x. Some (drawn_shown x) };

    fn fmt<W: fmt::Write>(&self, f: &mut fmt::Formatter<W>) -> fmt::Result {
        let Drawn {
            sections,
            wagons,
            figure,
        } = *self;
        write!(f, "{sections} {wagons} {figure}")
    }
}

// Draws the siding up from the sheet at the start of the input; where that is refused, the siding stays as it was.
pub fn open(siding: &mut Siding, input: &[u8]) -> Result<Drawn, Refusal>
    ensures opening { result ≡ opening_of input.now }
    ensures stands { MatchResult (drawn_from input.now) (λ x. state_of siding.new ≡ x) (λ _. siding.new ≡ siding.old) }
{
    if input.len() > MOST_BYTES {
        return Err(Refusal::OutOfRoom);
    }
    let (sheet, _) = parted(input);
    siding.draw_up(sheet)?;
    Ok(Drawn {
        sections: siding.sections(),
        wagons: siding.wagon_count(),
        figure: siding.figure(),
    })
}
