// The sum after each move is written, under a tariff.
ghost use Rattle.lists.specs.Bill.{sums_writer};

use super::EachMove;
use motion::moves::Move;
use motion::ways::Way;
use tariff::Tariff;

#[derive(Drop)]
pub(crate) struct Running<'a, F: Tariff> {
    pub(crate) tariff: &'a F,
    // what the moves so far come to
    pub(crate) sum: F::Sum,
}

impl<'a, F: Tariff> EachMove for Running<'a, F> {
    type Entry = F::Sum;

    ghost writer = { sums_writer F.Tariff.rule };

    fn write(&mut self, m: Move) -> F::Sum {
        // `siding` asks for the same two of a hand move, but goes on to a demand: as a pair they would be made and taken
        // apart in both.
        let (higher, way) = if m.to < m.from {
            (m.from, Way::Inward)
        } else {
            (m.to, Way::Outward)
        };
        self.sum = self.tariff.join(self.sum, self.tariff.charge(higher, way));
        self.sum
    }
}
