// Which moves are legal.
ghost use Rattle.std.specs.Prelude.{◌≡◌, ◌<◌, OnOk};
ghost use Rattle.motion.specs.Moves.{Legal};
ghost use Rattle.siding.specs.Outcome.{are_neighbours, legality};

use super::{MOST_SECTIONS, Track};
use motion::moves::Move;
use refusal::Refusal;

impl Track {
    // The refusal of a move where the wagons stand so, if it meets one.
    pub fn test_move(&self, wagons: &[u8; MOST_SECTIONS], each: Move) -> Result<(), Refusal>
        ensures tested { result ≡ legality self.now.sections self.now.inner wagons.now each }
        ensures legal { OnOk result (Legal self.now.sections self.now.inner wagons.now each) }
    {
        let from = self.section(each.from)?;
        let to = self.section(each.to)?;
        if !self.are_neighbours(from, to) {
            return Err(Refusal::NotNeighbours(0));
        }
        if wagons[from] == 0 {
            return Err(Refusal::NotThere(0));
        }
        if wagons[to] != 0 {
            return Err(Refusal::AlreadyThere(0));
        }
        Ok(())
    }

    // Whether one of two sections is a branch of the other.
    fn are_neighbours(&self, a: usize, b: usize) -> bool
        requires { (a < self.now.sections) × (b < self.now.sections) }
        ensures { result ≡ are_neighbours self.now.inner a b }
    {
        b > 0 && usize::from(self.inner[b]) == a || a > 0 && usize::from(self.inner[a]) == b
    }
}
