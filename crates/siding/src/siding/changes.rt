// Putting and taking wagons, marking and unmarking berths. Each begins a page.
ghost use Rattle.std.specs.Prelude.{◌≡◌};
ghost use Rattle.motion.specs.State.{page_begun};
ghost use Rattle.motion.specs.declared.calls.Call.TheVariants.{Put, Take, Mark, Unmark};
ghost use Rattle.siding.specs.Outcome.{outcome, CarriedOut};
ghost use Rattle.siding.specs.Restock.{MayStand};
ghost use Rattle.siding.specs.Stands.{state_of, standing};

use crate::page::Page;
use crate::placed::Placed;
use crate::siding::Siding;
use crate::tally::shift;
use refusal::Refusal;

// What is left of the four calls differs in which of the two changes, how, and by which sign; one function for them would
// take all three.
impl Siding {
    // Adds a wagon to an empty section.
    pub fn put(&mut self, section: u16) -> Result<(), Refusal>
        ensures { CarriedOut (outcome (Put section) (state_of self.old)) result self.old self.new }
    {
        let s = self.track.section(section)?;
        self.wagons.test_none(s)?;
        let mut wagons = self.wagons;
        wagons.add(s);
        *self = self.restocked(wagons, self.berths, s, -1);
        Ok(())
    }

    // Removes a section's wagon.
    pub fn take(&mut self, section: u16) -> Result<(), Refusal>
        ensures { CarriedOut (outcome (Take section) (state_of self.old)) result self.old self.new }
    {
        let s = self.track.section(section)?;
        self.wagons.test_one(s)?;
        let mut wagons = self.wagons;
        wagons.remove(s);
        *self = self.restocked(wagons, self.berths, s, 1);
        Ok(())
    }

    // Adds a berth to a section without one.
    pub fn mark(&mut self, section: u16) -> Result<(), Refusal>
        ensures { CarriedOut (outcome (Mark section) (state_of self.old)) result self.old self.new }
    {
        let s = self.track.section(section)?;
        self.berths.test_none(s)?;
        let mut berths = self.berths;
        berths.add(s);
        *self = self.restocked(self.wagons, berths, s, 1);
        Ok(())
    }

    // Removes a section's berth.
    pub fn unmark(&mut self, section: u16) -> Result<(), Refusal>
        ensures { CarriedOut (outcome (Unmark section) (state_of self.old)) result self.old self.new }
    {
        let s = self.track.section(section)?;
        self.berths.test_one(s)?;
        let mut berths = self.berths;
        berths.remove(s);
        *self = self.restocked(self.wagons, berths, s, -1);
        Ok(())
    }

    // A copy of the siding with these wagons and berths and a page just begun; the demands differ by so much on the way
    // inward from `at`.
    fn restocked(&self, wagons: Placed, berths: Placed, at: usize, by: i16) -> Siding
        requires { MayStand self.now wagons berths at by }
        ensures { state_of result ≡ page_begun (standing self.now.track.sections self.now.track.inner wagons.in_section berths.in_section) }
    {
        let mut demand = self.demand;
        let figure = shift(&self.track, &mut demand, self.figure, at, by);
        Siding {
            track: self.track,
            wagons,
            berths,
            demand,
            figure,
            page: Page::begun(figure),
        }
    }
}
