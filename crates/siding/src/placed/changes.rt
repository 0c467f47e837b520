// One more or one less in a section.
ghost use Rattle.std.specs.Prelude.{◌≡◌, ℕ, ◌<◌, ◌≤◌, MatchResult, slice_index};
ghost use Rattle.refusal.specs.declared.Refusal.TheVariants.{AlreadyThere, NotThere};
ghost use Rattle.motion.specs.Moves.{one_less, one_more};

use super::Placed;
use crate::track::MOST_SECTIONS;
use refusal::Refusal;

impl Placed {
    pub(crate) fn new(in_section: [u8; MOST_SECTIONS]) -> Placed
        requires { (s : ℕ) → slice_index in_section s ≤ 1 }
        ensures { result.in_section ≡ in_section }
    {
        let in_all = in_section.iter().map(|held| u16::from(*held)).sum();
        Placed { in_section, in_all }
    }

    // The refusal of one more in a section, if it has one. It is asked before anything is copied.
    pub(crate) fn test_none(&self, s: usize) -> Result<(), Refusal>
        requires { s < 512 }
        ensures { MatchResult result (λ _. slice_index self.now.in_section s ≡ 0) (λ e. (0 < slice_index self.now.in_section s) × (e ≡ AlreadyThere 0)) }
    {
        if self.in_section[s] != 0 {
            return Err(Refusal::AlreadyThere(0));
        }
        Ok(())
    }

    // The refusal of one less in a section, if it has none.
    pub(crate) fn test_one(&self, s: usize) -> Result<(), Refusal>
        requires { s < 512 }
        ensures { MatchResult result (λ _. 0 < slice_index self.now.in_section s) (λ e. (slice_index self.now.in_section s ≡ 0) × (e ≡ NotThere 0)) }
    {
        if self.in_section[s] == 0 {
            return Err(Refusal::NotThere(0));
        }
        Ok(())
    }

    // Adds one to a section that has none.
    pub(crate) fn add(&mut self, s: usize)
        requires within { s < 512 }
        requires none { slice_index self.old.in_section s ≡ 0 }
        ensures { self.new.in_section ≡ one_more self.old.in_section s }
    {
        self.in_section[s] += 1;
        self.in_all += 1;
    }

    // Takes one from a section that has one.
    pub(crate) fn remove(&mut self, s: usize)
        requires within { s < 512 }
        requires one { 0 < slice_index self.old.in_section s }
        ensures { self.new.in_section ≡ one_less self.old.in_section s }
    {
        self.in_section[s] -= 1;
        self.in_all -= 1;
    }

    // Takes one to an empty section from another that has one. `lists` does the same on its own copy of the wagons: a
    // public function would have to test what both have tested.
    pub(crate) fn carry(&mut self, from: usize, to: usize)
        requires within { (from < 512) × (to < 512) }
        requires there { 0 < slice_index self.old.in_section from }
        requires free { slice_index self.old.in_section to ≡ 0 }
        ensures { self.new.in_section ≡ one_more (one_less self.old.in_section from) to }
    {
        self.in_section[from] -= 1;
        self.in_section[to] += 1;
    }
}
