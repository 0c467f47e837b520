// The plan: the moves due, in their order.
ghost use Rattle.siding.specs.Stands.{state_of};
ghost use Rattle.lists.specs.Held.{SameSlice};
ghost use Rattle.lists.specs.Plan.{Planned};

use crate::filling::write_due;
use crate::list::List;
use crate::writer::moves::Moves;
use motion::moves::Move;
use refusal::Refusal;
use siding::Siding;

// Writes the moves due into the list, in place of what it holds, and answers how many they are. The siding stays as it
// is: the moves are made on a copy of its wagons. A branch that does not ask is passed once and for all, so the work is
// as much as there are sections and moves.
pub fn plan(siding: &Siding, list: &mut List<Move>) -> Result<usize, Refusal>
    ensures planned { Planned (state_of siding.now) list.old list.new result }
    ensures slice { SameSlice list.old list.new }
{
    let mut writer = Moves;
    write_due(siding, &mut writer, list)
}
