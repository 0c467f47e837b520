// What can be read off a siding.
ghost use Rattle.std.specs.Prelude.{◌≡◌, ◌<◌, MatchResult, slice_index};
ghost use Rattle.refusal.specs.declared.Refusal.TheVariants.{NumbersDiffer};
ghost use Rattle.motion.specs.Tree.{total};
ghost use Rattle.motion.specs.Demand.{demand_of};
ghost use Rattle.motion.specs.State.{figure, EqualNumbers};
ghost use Rattle.siding.specs.Sheet.{mark};
ghost use Rattle.siding.specs.Stands.{state_of, reading};

use crate::layout::Layout;
use crate::siding::Siding;
use refusal::Refusal;

impl Siding {
    // How many sections there are.
    pub fn sections(&self) -> u16
        ensures { result ≡ (state_of self.now).sections }
    {
        // it fits: a refusal of `TryFrom` could not come
        self.track.sections as u16
    }

    // How many wagons there are.
    pub fn wagon_count(&self) -> u16
        ensures { result ≡ total (state_of self.now).sections (state_of self.now).wagons }
    {
        self.wagons.in_all
    }

    // How many berths there are.
    pub fn berth_count(&self) -> u16
        ensures { result ≡ total (state_of self.now).sections (state_of self.now).berths }
    {
        self.berths.in_all
    }

    // The sum of the demands without their signs, over all sections but the neck.
    pub fn figure(&self) -> u32
        ensures { result ≡ figure (state_of self.now) }
    {
        self.figure
    }

    // The figure when the page was begun.
    pub fn head(&self) -> u32
        ensures { result ≡ (state_of self.now).head }
    {
        self.page.head
    }

    // How many moves are on the page.
    pub fn moves(&self) -> u32
        ensures { result ≡ (state_of self.now).moves }
    {
        self.page.moves
    }

    // How many moves of the page went away, that is, left the figure greater than before.
    pub fn away(&self) -> u32
        ensures { result ≡ (state_of self.now).away }
    {
        self.page.away
    }

    // The inner neighbour of a section; 0 for the neck. This and the two below look the section up alike: one function
    // over all three would take the reading as a closure.
    pub fn inner_of(&self, section: u16) -> Result<u16, Refusal>
        ensures { result ≡ reading self.now section (slice_index (state_of self.now).inner section) }
    {
        let s = self.track.section(section)?;
        Ok(self.track.inner()[s])
    }

    // The mark of a section: 1 for a wagon, plus 2 for a berth.
    pub fn mark_of(&self, section: u16) -> Result<u8, Refusal>
        ensures { result ≡ reading self.now section (mark (state_of self.now) section) }
    {
        let s = self.track.section(section)?;
        Ok(self.mark_at(s))
    }

    // The demand of a section: the berths below it less the wagons below it.
    pub fn demand_of(&self, section: u16) -> Result<i16, Refusal>
        ensures { result ≡ reading self.now section (demand_of (state_of self.now).sections (state_of self.now).inner (state_of self.now).wagons (state_of self.now).berths section) }
    {
        let s = self.track.section(section)?;
        Ok(self.demand[s])
    }

    // Its track and arrays.
    pub fn layout(&self) -> Layout<'_>
        ensures track { result.track.now ≡ self.now.track }
        ensures wagons { result.wagons.now ≡ (state_of self.now).wagons }
        ensures berths { result.berths.now ≡ (state_of self.now).berths }
        ensures demand { result.demand.now ≡ self.now.demand }
    {
        Layout {
            track: &self.track,
            wagons: &self.wagons.in_section,
            berths: &self.berths.in_section,
            demand: &self.demand,
        }
    }

    // The refusal of what needs as many wagons as berths, if there are not.
    pub fn test_numbers(&self) -> Result<(), Refusal>
        ensures { MatchResult result (λ _. EqualNumbers (state_of self.now)) (λ e. (EqualNumbers (state_of self.now) → ⊥) × (e ≡ NumbersDiffer)) }
    {
        if self.wagons.in_all != self.berths.in_all {
            return Err(Refusal::NumbersDiffer);
        }
        Ok(())
    }

    // The mark of a section that there is.
    pub(crate) fn mark_at(&self, s: usize) -> u8
        requires { s < self.now.track.sections }
        ensures { result ≡ mark (state_of self.now) s }
    {
        self.wagons.in_section[s] + 2 * self.berths.in_section[s]
    }
}
