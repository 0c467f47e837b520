ghost use Rattle.std.specs.Prelude.{◌≡◌, ◌+◌, ◌*◌, ◌≤◌, length};
ghost use Rattle.motion.specs.Demand.{figure_of};
ghost use Rattle.siding.specs.Kept.{Clear, ClearDemands, TrueDemands};

use crate::page::Page;
use crate::placed::Placed;
use crate::track::{MOST_SECTIONS, Track};

// A siding of 1 to 512 sections. Every array has a slot for each section, section 0 first; the slots past them hold 0,
// so two sidings that stand alike are the same value. It lives in fixed memory, so that no call can fail for want of it.
// An array to each thing that is kept: they are lent and copied apart, as a plan copies wagons and demands alone.
// It has no `impl Model`: it is `Copy`, so its value would have to give the links, demands and figure back.
#[derive(Clone, Copy)]
pub struct Siding {
    track: Track,
    wagons: Placed,
    berths: Placed,
    // what holds of the track, wagons and berths, kept so that nothing is counted afresh
    demand: [i16; MOST_SECTIONS],
    figure: u32,
    page: Page,
    ghost long: { length demand ≡ 512 },
    ghost clear: { Clear track.sections wagons.in_section × Clear track.sections berths.in_section },
    ghost clear_demand: { ClearDemands track.sections demand },
    ghost demands: { TrueDemands track.sections track.inner wagons.in_section berths.in_section demand },
    ghost sums: { figure ≡ figure_of track.sections track.inner wagons.in_section berths.in_section },
    ghost few: { page.moves ≤ 500000 },
    ghost balances: { page.moves + figure ≡ page.head + 2 * page.away },
}

mod changes;
mod drawing;
mod hand;
mod make;
mod page;
mod readings;
mod steps;
mod writing;
