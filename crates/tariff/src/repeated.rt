// One charge, joined many times.
ghost use Rattle.std.specs.Prelude.{◌≡◌};
ghost use Rattle.tariff.specs.Charges.{times, joined_if_odd};

use crate::tariff::Tariff;

// The charge joined so many times, by doubling: it takes as many turns as the number has binary digits.
// A loop: as a recursion that halves, a quote took more than twice as long.
pub fn repeated<F: Tariff>(tariff: &F, charge: F::Sum, count: u16) -> F::Sum
    ensures { result ≡ times (F.Tariff.rule tariff.now) charge count }
{
    let mut sum = tariff.nothing();
    let mut doubled = charge;
    let mut left = count;
    while left > 0 {
        sum = join_if_odd(tariff, sum, doubled, left);
        doubled = tariff.join(doubled, doubled);
        left /= 2;
    }
    sum
}

// Joins the charge where the number is odd.
fn join_if_odd<F: Tariff>(tariff: &F, sum: F::Sum, charge: F::Sum, number: u16) -> F::Sum
    ensures { result ≡ joined_if_odd (F.Tariff.rule tariff.now) sum charge number }
{
    if number % 2 == 1 {
        tariff.join(sum, charge)
    } else {
        sum
    }
}
