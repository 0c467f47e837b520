// The number that an amount is: made of it, read as it, shown as it.
ghost use Rattle.std.specs.Prelude.{◌≡◌, Some};
ghost use Rattle.std.specs.Fmt.{decimal};
ghost use Rattle.tariff.specs.Amounts.{capped};

use super::Amount;
use std::fmt;

impl From<u32> for Amount {
    ghost from_gives = { λ value amount. amount ≡ capped value };

    fn from(value: u32) -> Amount {
        Amount { value }
    }
}

impl From<Amount> for u32 {
    ghost from_gives = { λ amount value. value ≡ amount.value };

    fn from(amount: Amount) -> u32 {
        amount.value
    }
}

impl fmt::Display for Amount {
    ghost output = { λ amount. Some (decimal amount.value) };

    fn fmt<W: fmt::Write>(&self, f: &mut fmt::Formatter<W>) -> fmt::Result {
        write!(f, "{}", self.value)
    }
}
