// Any two tariffs in one: the first decides, and the second where the first sees no difference.
ghost use Rattle.std.specs.Prelude.{◌≡◌};
ghost use Rattle.tariff.specs.Pairs.{pair_rule};
ghost use Rattle.tariff.specs.Lawful.{pair_laws, pair_total, pair_outside};

use crate::tariff::Tariff;
use motion::ways::Way;

// A sum of each.
#[derive(Clone, Copy, PartialEq, Eq, Debug)]
pub struct Both<X, Y> {
    pub first: X,
    pub second: Y,
}

#[derive(Clone, Copy)]
pub struct Pair<A, B> {
    pub one: A,
    pub two: B,
}

impl<F: Tariff, G: Tariff> Tariff for Pair<F, G> {
    type Sum = Both<F::Sum, G::Sum>;

    ghost rule = { λ t. pair_rule (F.Tariff.rule t.one) (G.Tariff.rule t.two) };

    ghost laws = { λ t. pair_laws (F.Tariff.rule t.one) (G.Tariff.rule t.two) (F.Tariff.laws t.one) (G.Tariff.laws t.two) };

    ghost total = { λ t. pair_total (F.Tariff.rule t.one) (G.Tariff.rule t.two) (F.Tariff.total t.one) (G.Tariff.total t.two) };

    ghost outside = { λ t. pair_outside (F.Tariff.rule t.one) (G.Tariff.rule t.two) (F.Tariff.outside t.one) (G.Tariff.outside t.two) };

    fn nothing(&self) -> Both<F::Sum, G::Sum> {
        Both {
            first: self.one.nothing(),
            second: self.two.nothing(),
        }
    }

    fn charge(&self, section: u16, way: Way) -> Both<F::Sum, G::Sum> {
        Both {
            first: self.one.charge(section, way),
            second: self.two.charge(section, way),
        }
    }

    fn join(&self, a: Both<F::Sum, G::Sum>, b: Both<F::Sum, G::Sum>) -> Both<F::Sum, G::Sum> {
        Both {
            first: self.one.join(a.first, b.first),
            second: self.two.join(a.second, b.second),
        }
    }

    fn not_more(&self, a: Both<F::Sum, G::Sum>, b: Both<F::Sum, G::Sum>) -> bool {
        self.one.not_more(a.first, b.first)
            && (!self.one.not_more(b.first, a.first) || self.two.not_more(a.second, b.second))
    }
}
