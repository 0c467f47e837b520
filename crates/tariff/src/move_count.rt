// The tariff that counts moves.
ghost use Rattle.std.specs.Prelude.{◌≡◌};

use crate::amount::Amount;
use crate::measure::Measure;

#[derive(Clone, Copy)]
pub struct MoveCount;

impl Measure for MoveCount {
    ghost measure = { λ _ _. 1 };

    fn measure(&self, _section: u16) -> Amount {
        Amount::from(1)
    }
}
