// Any call, by its name.
ghost use Rattle.siding.specs.Outcome.{outcome, CarriedOut};
ghost use Rattle.siding.specs.Stands.{state_of};

use crate::siding::Siding;
use motion::calls::Call;
use refusal::Refusal;

impl Siding {
    // Makes a call. A call is a value that a line gives, so it is matched here, and is no closure.
    pub fn make(&mut self, call: Call) -> Result<(), Refusal>
        ensures { CarriedOut (outcome call (state_of self.old)) result self.old self.new }
    {
        match call {
            Call::Put(section) => self.put(section),
            Call::Take(section) => self.take(section),
            Call::Mark(section) => self.mark(section),
            Call::Unmark(section) => self.unmark(section),
            Call::Hand(hand) => self.hand_move(hand.from, hand.to),
            Call::Turn => {
                self.turn_page();
                Ok(())
            }
        }
    }
}
