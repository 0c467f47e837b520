// One move of a wagon.
ghost use Rattle.std.specs.Prelude.{◌≡◌, ◌≤◌, unsigned_abs};
ghost use Rattle.motion.specs.Due.{over, Eased};
ghost use Rattle.motion.specs.Moves.{moved};
ghost use Rattle.lists.specs.Planner.{CanCarry, DemandEased};

use super::Planner;
use crate::moving::move_wagon;
use motion::moves::Move;
use motion::ways::Way;

impl Planner<'_> {
    // Makes the move between a section and its branch, and answers it.
    pub(crate) fn carry(&mut self, way: Way, u: usize, v: usize) -> Move
        requires { CanCarry way self.old u v }
        ensures siding { self.new.siding.now ≡ self.old.siding.now }
        ensures carried { self.new.wagons ≡ moved self.old.wagons (over way u v) }
        ensures demand { DemandEased way self.old v self.new }
        ensures cursors { (self.new.outward ≡ self.old.outward) × (self.new.inward ≡ self.old.inward) }
        ensures made { result ≡ over way u v }
    {
        // the sections fit: a refusal of `TryFrom` could not come
        let m = way.move_over(u as u16, v as u16);
        move_wagon(&mut self.wagons, m);
        self.demand[v] = eased(way, self.demand[v]);
        m
    }
}

// The demand of a branch after the move that it asks for: one nearer to 0.
fn eased(way: Way, demand: i16) -> i16
    requires { unsigned_abs demand ≤ 512 }
    ensures { Eased way demand result }
{
    match way {
        Way::Outward => demand - 1,
        Way::Inward => demand + 1,
    }
}
