// The tariff that takes the steepest grade of all moves: two grades for each section, one for each way.
ghost use Rattle.std.specs.Prelude.{◌≡◌, []};
ghost use Rattle.tariff.specs.Tables.{Holds, by_way};
ghost use Rattle.tariff.specs.Filling.{GradesFilled};
ghost use Rattle.tariff.specs.Grades.{grade_rule};
ghost use Rattle.tariff.specs.Lawful.{grade_laws, grade_total, grade_outside};

use crate::table::{TABLE_SIZE, table};
use crate::tariff::{Tariff, can_be_crossed};
use motion::ways::Way;
use refusal::Refusal;

// The grades come as a list for each way, so each way has a table: an array of pairs would be filled entry by entry.
#[derive(Clone, Copy)]
pub struct Steepest {
    inward: [u8; TABLE_SIZE],
    outward: [u8; TABLE_SIZE],
}

impl Steepest {
    // All grades are 0.
    pub fn level() -> Steepest
        ensures inward { Holds [] result.inward }
        ensures outward { Holds [] result.outward }
    {
        Steepest {
            inward: [0; TABLE_SIZE],
            outward: [0; TABLE_SIZE],
        }
    }

    // Replaces all grades by those of two lists, section 0 first; missing sections have 0.
    pub fn fill(&mut self, inward: &[u8], outward: &[u8]) -> Result<(), Refusal>
        ensures { GradesFilled inward.now outward.now self.old self.new result }
    {
        if inward.len() > TABLE_SIZE || outward.len() > TABLE_SIZE {
            return Err(Refusal::SizeOutOfRange);
        }
        *self = Steepest {
            inward: table(inward, 0),
            outward: table(outward, 0),
        };
        Ok(())
    }

    // The grades of one way.
    fn grades(&self, way: Way) -> &[u8; TABLE_SIZE]
        ensures { result.now ≡ by_way self.now.inward self.now.outward way }
    {
        match way {
            Way::Inward => &self.inward,
            Way::Outward => &self.outward,
        }
    }
}

impl Tariff for Steepest {
    type Sum = u8;

    ghost rule = { λ t. grade_rule t.inward t.outward };

    ghost laws = { λ t. grade_laws t.inward t.outward };

    ghost total = { λ t. grade_total t.inward t.outward };

    ghost outside = { λ t. grade_outside t.inward t.outward };

    fn nothing(&self) -> u8 {
        0
    }

    fn charge(&self, section: u16, way: Way) -> u8 {
        if can_be_crossed(section) {
            self.grades(way)[usize::from(section)]
        } else {
            0
        }
    }

    fn join(&self, a: u8, b: u8) -> u8 {
        a.max(b)
    }

    fn not_more(&self, a: u8, b: u8) -> bool {
        a <= b
    }
}
