// The search for the lowest branch that asks, from where it stopped the last time.
ghost use Rattle.std.specs.Prelude.{◌≡◌, ◌<◌, slice_index, slice_set};
ghost use Rattle.std.specs.Option.{unwrap_or};
ghost use Rattle.lists.specs.Planner.{cursors, other_cursors, Asking};

use super::Planner;
use motion::ways::Way;

impl Planner<'_> {
    // The lowest branch of the section that asks for a move this way.
    pub(crate) fn asking(&mut self, way: Way, u: usize) -> Option<usize>
        requires { u < self.old.siding.now.track.sections }
        ensures siding { self.new.siding.now ≡ self.old.siding.now }
        ensures wagons { self.new.wagons ≡ self.old.wagons }
        ensures demand { self.new.demand ≡ self.old.demand }
        ensures cursor { cursors way self.new ≡ slice_set (cursors way self.old) u (unwrap_or result 0) }
        ensures others { other_cursors way self.new ≡ other_cursors way self.old }
        ensures asking { Asking self.old.siding.now self.old.wagons way u result }
    {
        let found = self.reached(way, u);
        self.keep(way, u, found);
        found
    }

    // Where the search comes to: the first branch from the cursor on that asks.
    fn reached(&self, way: Way, u: usize) -> Option<usize>
        requires { u < self.now.siding.now.track.sections }
        ensures { Asking self.now.siding.now self.now.wagons way u result }
    {
        let track = self.siding.layout().track;
        track
            .branches_from(self.cursor(way, u))
            .find(|branch| way.asks(self.demand[*branch]))
    }

    fn cursor(&self, way: Way, u: usize) -> usize
        requires { u < self.now.siding.now.track.sections }
        ensures { result ≡ slice_index (cursors way self.now) u }
    {
        match way {
            Way::Outward => usize::from(self.outward[u]),
            Way::Inward => usize::from(self.inward[u]),
        }
    }

    // Puts the cursor where the search has come to; a section fits, so a refusal of `TryFrom` could not come.
    fn keep(&mut self, way: Way, u: usize, found: Option<usize>)
        requires within { u < self.old.siding.now.track.sections }
        requires asking { Asking self.old.siding.now self.old.wagons way u found }
        ensures siding { self.new.siding.now ≡ self.old.siding.now }
        ensures wagons { self.new.wagons ≡ self.old.wagons }
        ensures demand { self.new.demand ≡ self.old.demand }
        ensures cursor { cursors way self.new ≡ slice_set (cursors way self.old) u (unwrap_or found 0) }
        ensures others { other_cursors way self.new ≡ other_cursors way self.old }
    {
        let cursor = found.unwrap_or(0) as u16;
        match way {
            Way::Outward => self.outward[u] = cursor,
            Way::Inward => self.inward[u] = cursor,
        }
    }
}
