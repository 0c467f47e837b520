// The lengths of a tariff of metres, and what it measures.
ghost use Rattle.std.specs.Prelude.{[], slice_index};
ghost use Rattle.tariff.specs.Filling.{LengthsFilled};
ghost use Rattle.tariff.specs.Tables.{Holds};

use super::Metres;
use crate::amount::Amount;
use crate::measure::Measure;
use crate::table::{TABLE_SIZE, table, too_long};
use refusal::Refusal;

impl Metres {
    // All lengths are 0.
    pub fn level() -> Metres
        ensures { Holds [] result.lengths }
    {
        Metres {
            lengths: [0; TABLE_SIZE],
        }
    }

    // Replaces all lengths by those of a list, section 0 first; missing sections have 0.
    pub fn fill(&mut self, lengths: &[u16]) -> Result<(), Refusal>
        ensures { LengthsFilled lengths.now self.old self.new result }
    {
        if lengths.len() > TABLE_SIZE {
            return Err(Refusal::SizeOutOfRange);
        }
        if let Some(s) = too_long(lengths) {
            return Err(Refusal::LengthTooLarge(s));
        }
        *self = Metres {
            lengths: table(lengths, 0),
        };
        Ok(())
    }
}

impl Measure for Metres {
    ghost measure = { λ metres s. slice_index metres.lengths s };

    fn measure(&self, section: u16) -> Amount {
        let length = self.lengths.get(usize::from(section)).copied();
        Amount::from(u32::from(length.unwrap_or(0)))
    }
}
