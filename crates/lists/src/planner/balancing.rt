// The balancing recursion: section by section, from the neck outward, each is settled before those below it. Room in the
// book is asked and not kept by it: it is as much as the planner's figure, so a book that kept it would hold the planner.
ghost use Rattle.std.specs.Prelude.{◌≡◌, ◌<◌, [], ◌∷◌, length};
ghost use Rattle.motion.specs.Due.{Ready, over};
ghost use Rattle.motion.specs.Moves.{moved};
ghost use Rattle.motion.specs.Stepping.{Task};
ghost use Rattle.lists.specs.Planner.{CanCarry, DemandEased};
ghost use Rattle.lists.specs.Writing.{Wrote, HasSlot};
ghost use Rattle.lists.specs.Balanced.{Made, ShiftsAt, TurnsAt, BalancingAt, LowestAt, HasRoom, SettledBefore};

use super::Planner;
use crate::book::Book;
use crate::writer::EachMove;
use motion::ways::Way;

impl Planner<'_> {
    // Balances a section, and then each branch with all below it, in rising order.
    pub(crate) fn balance<W: EachMove>(&mut self, u: usize, book: &mut Book<'_, '_, W>)
        requires within { u < self.old.siding.now.track.sections }
        requires before { SettledBefore self.old.siding.now self.old.wagons u }
        requires room { HasRoom self.old.siding.now self.old.wagons book.old }
        ensures siding { self.new.siding.now ≡ self.old.siding.now }
        ensures balanced { Made W.EachMove.writer (BalancingAt self.old.siding.now self.old.wagons (Task.whole u)) book.old self.new.wagons book.new }
    {
        self.settle(u, book);
        let track = self.siding.layout().track;
        for branch in track.branches(u) {
            self.balance(branch, book);
        }
    }

    // Settles a section: while a branch of it has a demand, it hands on the way that it can.
    fn settle<W: EachMove>(&mut self, u: usize, book: &mut Book<'_, '_, W>)
        requires within { u < self.old.siding.now.track.sections }
        requires before { SettledBefore self.old.siding.now self.old.wagons u }
        requires room { HasRoom self.old.siding.now self.old.wagons book.old }
        ensures siding { self.new.siding.now ≡ self.old.siding.now }
        ensures settled { Made W.EachMove.writer (TurnsAt self.old.siding.now self.old.wagons u) book.old self.new.wagons book.new }
    {
        loop {
            let way = Way::of(self.wagons[u]);
            match self.asking(way, u) {
                Some(v) => self.shift(way, u, v, book),
                None => return,
            }
        }
    }

    // Brings a wagon over between a section and its lowest branch that asks; where the branch is not open, it first
    // does the same with a branch of its own.
    fn shift<W: EachMove>(&mut self, way: Way, u: usize, v: usize, book: &mut Book<'_, '_, W>)
        requires lowest { LowestAt self.old.siding.now way self.old.wagons u v }
        requires ready { Ready way self.old.wagons u }
        requires room { HasRoom self.old.siding.now self.old.wagons book.old }
        ensures siding { self.new.siding.now ≡ self.old.siding.now }
        ensures shifted { Made W.EachMove.writer (ShiftsAt self.old.siding.now way self.old.wagons u v) book.old self.new.wagons book.new }
    {
        if way.is_open(self.wagons[v]) {
            self.hand_over(way, u, v, book);
            return;
        }
        let Some(t) = self.asking(way, v) else {
            unreachable()
        };
        self.shift(way, v, t, book);
        self.hand_over(way, u, v, book);
    }

    // Makes one move, and writes it down.
    fn hand_over<W: EachMove>(&mut self, way: Way, u: usize, v: usize, book: &mut Book<'_, '_, W>)
        requires can { CanCarry way self.old u v }
        requires room { HasSlot book.old }
        ensures siding { self.new.siding.now ≡ self.old.siding.now }
        ensures carried { self.new.wagons ≡ moved self.old.wagons (over way u v) }
        ensures demand { DemandEased way self.old v self.new }
        ensures cursors { (self.new.outward ≡ self.old.outward) × (self.new.inward ≡ self.old.inward) }
        ensures wrote { Wrote W.EachMove.writer book.old (over way u v ∷ []) book.new }
    {
        let m = self.carry(way, u, v);
        book.enter(m);
    }
}
