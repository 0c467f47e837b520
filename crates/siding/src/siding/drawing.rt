// Drawing a siding up from its sheet.
ghost use Rattle.std.specs.Prelude.{◌≡◌, ◌≤◌, [], ◌∷◌, Ok, Err, MatchResult, OnOk};
ghost use Rattle.motion.specs.State.{page_begun};
ghost use Rattle.siding.specs.Kept.{Clear};
ghost use Rattle.siding.specs.Sheet.{drawn, sheet_of};
ghost use Rattle.siding.specs.Stands.{state_of, standing};

use crate::page::Page;
use crate::placed::Placed;
use crate::sheet::Sheet;
use crate::siding::Siding;
use crate::tally::{demands, figure_of};
use crate::track::{MOST_SECTIONS, Track};
use refusal::Refusal;

impl Siding {
    // The siding of one empty section without a berth.
    pub fn bare() -> Siding
        ensures { drawn (0 ∷ 1 ∷ 0 ∷ 0 ∷ 0 ∷ 0 ∷ 0 ∷ []) ≡ Ok (state_of result) }
    {
        Siding::fresh(
            Track::laid(1, [0; MOST_SECTIONS]),
            Placed::new([0; MOST_SECTIONS]),
            Placed::new([0; MOST_SECTIONS]),
        )
    }

    // Fills the siding from a sheet; a sheet that is refused leaves it as it was.
    pub fn draw_up(&mut self, sheet: &[u8]) -> Result<(), Refusal>
        ensures drawn { MatchResult result (λ _. drawn sheet.now ≡ Ok (state_of self.new)) (λ e. (drawn sheet.now ≡ Err e) × (self.new ≡ self.old)) }
        ensures sheet_round_trip { OnOk result (sheet_of (state_of self.new) ≡ sheet.now) }
    {
        let sheet = Sheet::faultless(sheet)?;
        let wagons = Placed::new(sheet.wagons());
        let miscounted = wagons.in_all != sheet.wagons_stated();
        if miscounted {
            return Err(Refusal::WagonsMiscounted);
        }
        let track = Track::laid(sheet.sections, sheet.inner());
        *self = Siding::fresh(track, wagons, Placed::new(sheet.berths()));
        Ok(())
    }

    // The siding of this track, with these wagons and berths, its page just begun.
    fn fresh(track: Track, wagons: Placed, berths: Placed) -> Siding
        requires clear_wagons { Clear track.sections wagons.in_section }
        requires clear_berths { Clear track.sections berths.in_section }
        ensures { state_of result ≡ page_begun (standing track.sections track.inner wagons.in_section berths.in_section) }
    {
        let demand = demands(&track, &wagons, &berths);
        let figure = figure_of(&track, &demand);
        Siding {
            track,
            wagons,
            berths,
            demand,
            figure,
            page: Page::begun(figure),
        }
    }
}
