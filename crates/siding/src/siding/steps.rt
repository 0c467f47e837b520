// The step: the next move of the plan. A section is a bare number here, and each function asks that it is one of this
// siding's: a type that ties it would borrow the siding, and every branch that the track gives would be wrapped again.
ghost use Rattle.std.specs.Prelude.{◌≡◌, ◌↔◌, ℕ, ◌<◌, pos, IsTrue};
ghost use Rattle.motion.specs.Due.{Asks, LowestAsking};
ghost use Rattle.motion.specs.Demand.{demand_of};
ghost use Rattle.motion.specs.State.{EqualNumbers};
ghost use Rattle.motion.specs.Visit.{Unsettled};
ghost use Rattle.siding.specs.Stands.{state_of};
ghost use Rattle.siding.specs.Steps.{Picked, Visited, RowVisited, MovesFirst, IsDue, Stepped};

use crate::siding::Siding;
use motion::moves::Move;
use motion::ways::Way;
use refusal::Refusal;

impl Siding {
    // Makes the move that is due, and answers it; none is due once every section is settled, and that is no refusal.
    pub fn step(&mut self) -> Result<Option<Move>, Refusal>
        ensures { Stepped self.old self.new result }
    {
        self.test_numbers()?;
        let due = self.due();
        if let Some(m) = due {
            self.hand_move(m.from, m.to)?;
        }
        Ok(due)
    }

    // The move that is due: the first unsettled section passes its wagon outward, or draws one inward if it is empty.
    fn due(&self) -> Option<Move>
        requires { EqualNumbers (state_of self.now) }
        ensures { IsDue self.now result }
    {
        let u = self.visit(0)?;
        self.first_move(Way::of(self.wagons.in_section[u]), u)
    }

    // Whether some branch of the section has a demand other than 0.
    fn is_unsettled(&self, u: usize) -> bool
        requires { u < self.now.track.sections }
        ensures { IsTrue result ↔ Unsettled self.now.track.sections self.now.track.inner self.now.wagons.in_section self.now.berths.in_section u }
    {
        self.track.branches(u).any(|branch| self.wants(branch))
    }

    // Whether a section has a demand other than 0.
    fn wants(&self, s: usize) -> bool
        requires { s < self.now.track.sections }
        ensures { IsTrue result ↔ (demand_of self.now.track.sections self.now.track.inner self.now.wagons.in_section self.now.berths.in_section s ≡ pos 0 → ⊥) }
    {
        self.demand[s] != 0
    }

    // The first unsettled section at or below u: u itself, or the first in the row of its branches.
    #[cycle(visit_visit_row)]
    fn visit(&self, u: usize) -> Option<usize>
        requires { u < self.now.track.sections }
        ensures { Visited self.now u result }
    {
        if self.is_unsettled(u) {
            Some(u)
        } else {
            self.visit_row(u)
        }
    }

    // The first unsettled section at or below the branches of u. A loop: the closure of a `find_map` would be one more
    // function of this cycle, with clauses of its own.
    #[cycle(visit_visit_row)]
    fn visit_row(&self, u: usize) -> Option<usize>
        requires { u < self.now.track.sections }
        ensures { RowVisited self.now u result }
    {
        for branch in self.track.branches(u) {
            let found = self.visit(branch);
            if found.is_some() {
                return found;
            }
        }
        None
    }

    // The first move of the section handing on this way: to or from its lowest branch that asks, or, where that branch
    // is not open, the first move of the branch doing the same.
    fn first_move(&self, way: Way, u: usize) -> Option<Move>
        requires within { u < self.now.track.sections }
        requires some { (v : ℕ) × LowestAsking way self.now.track.sections self.now.track.inner self.now.wagons.in_section self.now.berths.in_section u v }
        ensures { MovesFirst self.now way u result }
    {
        let v = self.asking(way, u)?;
        let open = way.is_open(self.wagons.in_section[v]);
        if open {
            // the sections fit: a refusal of `TryFrom` could not come
            Some(way.move_over(u as u16, v as u16))
        } else {
            self.first_move(way, v)
        }
    }

    // The lowest branch of the section that asks for a move this way.
    fn asking(&self, way: Way, u: usize) -> Option<usize>
        requires { u < self.now.track.sections }
        ensures { Picked self.now way u result }
    {
        self.track
            .branches(u)
            .find(|branch| self.asks(way, *branch))
    }

    // Whether a branch asks for a move this way.
    fn asks(&self, way: Way, branch: usize) -> bool
        requires { branch < self.now.track.sections }
        ensures { IsTrue result ↔ Asks way self.now.track.sections self.now.track.inner self.now.wagons.in_section self.now.berths.in_section branch }
    {
        way.asks(self.demand[branch])
    }
}
