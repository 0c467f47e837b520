// What a tariff is asked, and what it owes.
ghost use Rattle.std.specs.Prelude.{◌≡◌, ◌↔◌, ◌<◌, ◌≤◌, IsTrue};
ghost use Rattle.tariff.specs.Rule.{Rule, Laws, Total, NoChargeOutside, highest};

use motion::ways::Way;

// The highest section that can be the higher one of a move.
const HIGHEST: u16 = 511;

// Whether a move can cross the section, that is, have it as its higher one.
pub(crate) fn can_be_crossed(section: u16) -> bool
    ensures { IsTrue result ↔ ((0 < section) × (section ≤ highest)) }
{
    (1..=HIGHEST).contains(&section)
}

pub trait Tariff {
    // what moves come to: moves, metres, a grade
    type Sum: Copy;

    // what the tariff means
    ghost rule: { Self → Rule Self.Sum };

    // The sum with which a list of moves begins.
    fn nothing(&self) -> Self::Sum
        ensures { result ≡ (rule self.now).none };

    // The charge of a move by its higher-numbered section and its way.
    fn charge(&self, section: u16, way: Way) -> Self::Sum
        ensures { result ≡ (rule self.now).cost section way };

    fn join(&self, a: Self::Sum, b: Self::Sum) -> Self::Sum
        ensures { result ≡ (rule self.now).plus a b };

    // Whether the first sum is not more than the second.
    fn not_more(&self, a: Self::Sum, b: Self::Sum) -> bool
        ensures { result ≡ (rule self.now).within a b };

    ghost laws: { (t : Self) → Laws (rule t) };

    ghost total: { (t : Self) → Total (rule t) };

    ghost outside: { (t : Self) → NoChargeOutside (rule t) };
}
