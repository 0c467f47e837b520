// Tariffs that add up an amount for each section that is crossed, the same both ways.
ghost use Rattle.std.specs.Prelude.{◌≡◌, ℕ};
ghost use Rattle.tariff.specs.Amounts.{amount_rule, capped};
ghost use Rattle.tariff.specs.Lawful.{amount_laws, amount_total, amount_outside};

use crate::amount::Amount;
use crate::tariff::{Tariff, can_be_crossed};
use motion::ways::Way;

pub trait Measure {
    // the measure of each section
    ghost measure: { Self → ℕ → ℕ };

    // What a section comes to, if moves can cross it.
    fn measure(&self, section: u16) -> Amount
        ensures { result ≡ capped (measure self.now section) };
}

impl<M: Measure> Tariff for M {
    type Sum = Amount;

    ghost rule = { λ m. amount_rule (M.measure m) };

    ghost laws = { λ m. amount_laws (M.measure m) };

    ghost total = { λ m. amount_total (M.measure m) };

    ghost outside = { λ m. amount_outside (M.measure m) };

    fn nothing(&self) -> Amount {
        Amount::from(0)
    }

    fn charge(&self, section: u16, _way: Way) -> Amount {
        if can_be_crossed(section) {
            self.measure(section)
        } else {
            self.nothing()
        }
    }

    fn join(&self, a: Amount, b: Amount) -> Amount {
        a + b
    }

    fn not_more(&self, a: Amount, b: Amount) -> bool {
        a <= b
    }
}
