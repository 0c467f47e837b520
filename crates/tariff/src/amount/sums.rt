// Amounts joined.
ghost use Rattle.std.specs.Prelude.{◌≡◌};
ghost use Rattle.tariff.specs.Amounts.{plus_amount};

use super::Amount;
use std::ops::Add;

impl Add for Amount {
    type Output = Amount;

    ghost add_gives = { λ a b sum. sum ≡ plus_amount a b };

    fn add(self, other: Amount) -> Amount {
        Amount {
            value: self.value.saturating_add(other.value),
        }
    }
}
