// What is written for the moves due, whatever that is.
ghost use Rattle.std.specs.Prelude.{◌≤◌, length, MatchResult};
ghost use Rattle.motion.specs.State.{figure, EqualNumbers};
ghost use Rattle.siding.specs.Stands.{state_of};
ghost use Rattle.lists.specs.Held.{SameSlice};
ghost use Rattle.lists.specs.Writing.{entries};
ghost use Rattle.lists.specs.Plan.{NotWritten, WritesDue};

use crate::book::Book;
use crate::list::List;
use crate::planner::Planner;
use crate::writer::EachMove;
use refusal::Refusal;
use siding::Siding;

// Writes an entry for each of the moves due, in their order, and answers how many there are.
pub(crate) fn write_due<W: EachMove>(
    siding: &Siding,
    writer: &mut W,
    list: &mut List<W::Entry>,
) -> Result<usize, Refusal>
    ensures due { WritesDue (state_of siding.now) (entries W.EachMove.writer writer.old) list.old list.new result }
    ensures slice { SameSlice list.old list.new }
{
    may_write(siding, list)?;
    list.clear();
    let mut planner = Planner::new(siding);
    let mut book = Book { writer, list };
    planner.balance(0, &mut book);
    Ok(book.list.len())
}

// The refusal of a plan or a bill, if it meets one.
fn may_write<T: Copy>(siding: &Siding, list: &List<T>) -> Result<(), Refusal>
    ensures { MatchResult result (λ _. EqualNumbers (state_of siding.now) × (figure (state_of siding.now) ≤ length list.now.slots.now)) (λ e. NotWritten (state_of siding.now) list.now e) }
{
    siding.test_numbers()?;
    // `as`, since `From` leads from no `u32` to a `usize`
    if list.len() + list.room() < siding.figure() as usize {
        return Err(Refusal::OutOfRoom);
    }
    Ok(())
}
