// The calls that change a siding, besides the step.
use crate::moves::Move;

#[derive(Clone, Copy, PartialEq, Eq, Debug)]
pub enum Call {
    // a wagon is added to a section, or removed from it
    Put(u16),
    Take(u16),
    // a berth is added to a section, or removed from it
    Mark(u16),
    Unmark(u16),
    // a wagon is moved by hand
    Hand(Move),
    // a page is begun
    Turn,
}

// What can be done to a siding: a call, or a step, which makes the move that is due.
#[derive(Clone, Copy, PartialEq, Eq, Debug)]
pub enum Act {
    Call(Call),
    Step,
}
