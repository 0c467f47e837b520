// Moving a wagon by hand.
ghost use Rattle.std.specs.Prelude.{◌≡◌, ◌+◌, ◌<◌, ◌≤◌, pos, ◌+ℤ◌, Err, MatchResult, nat_lt, slice_index_or, unsigned_abs};
ghost use Rattle.motion.specs.Moves.{Legal};
ghost use Rattle.motion.specs.declared.calls.Call.TheVariants.{Hand};
ghost use Rattle.siding.specs.Hand.{MayMove, Crosses};
ghost use Rattle.siding.specs.Outcome.{outcome, CarriedOut};
ghost use Rattle.siding.specs.Stands.{state_of};

use crate::siding::Siding;
use crate::tally::resized;
use motion::moves::Move;
use refusal::Refusal;

// The most moves of a page.
const MOST_MOVES: u32 = 500_000;

// What a move changes at the one section that it crosses.
#[derive(Clone, Copy)]
pub(crate) struct Crossing {
    pub(crate) section: usize,
    pub(crate) demand: i16,
    pub(crate) figure: u32,
}

impl Siding {
    // Takes a wagon from one section to an empty neighbour.
    pub fn hand_move(&mut self, from: u16, to: u16) -> Result<(), Refusal>
        ensures { CarriedOut (outcome (Hand (record { from = from; to = to })) (state_of self.old)) result self.old self.new }
    {
        let hand = Move { from, to };
        self.may_move(hand)?;
        let crossing = self.crossing(hand);
        let mut next = *self;
        next.wagons.carry(usize::from(from), usize::from(to));
        next.demand[crossing.section] = crossing.demand;
        next.figure = crossing.figure;
        next.page.moves += 1;
        next.page.away += u32::from(self.figure < crossing.figure);
        *self = next;
        Ok(())
    }

    // The refusal of a hand move, if it meets one.
    fn may_move(&self, hand: Move) -> Result<(), Refusal>
        ensures { MatchResult result (λ _. MayMove self.now hand) (λ e. outcome (Hand hand) (state_of self.now) ≡ Err e) }
    {
        self.track.test_move(&self.wagons.in_section, hand)?;
        if self.page.moves >= MOST_MOVES {
            return Err(Refusal::PageFull);
        }
        Ok(())
    }

    // What a legal move changes: inward the demand of the section that it leaves rises, outward that of the section
    // that it enters falls.
    fn crossing(&self, hand: Move) -> Crossing
        requires { Legal self.now.track.sections self.now.track.inner self.now.wagons.in_section hand }
        ensures { Crosses self.now hand result }
    {
        if hand.to < hand.from {
            self.crossed(usize::from(hand.from), 1)
        } else {
            self.crossed(usize::from(hand.to), -1)
        }
    }

    // What changes when the demand of a section does, by so much.
    fn crossed(&self, section: usize, by: i16) -> Crossing
        requires within { (0 < section) × (section < self.now.track.sections) }
        requires one { unsigned_abs by ≤ 1 }
        ensures section { result.section ≡ section }
        ensures demand { result.demand ≡ slice_index_or self.now.demand section (pos 0) +ℤ by }
        ensures figure { result.figure + unsigned_abs (slice_index_or self.now.demand section (pos 0)) ≡ self.now.figure + unsigned_abs result.demand }
    {
        let was = self.demand[section];
        let demand = was + by;
        Crossing {
            section,
            demand,
            figure: resized(self.figure, was, demand),
        }
    }
}
