// What is counted from the sections when a siding is drawn up, and brought up to date when its wagons or berths change.
ghost use Rattle.std.specs.Prelude.{◌≡◌, ℕ, ◌+◌, ◌<◌, ◌≤◌, length, pos, ◌+ℤ◌, ◌-ℤ◌, if◌then◌else◌, slice_index, slice_index_or, unsigned_abs};
ghost use Rattle.motion.specs.Tree.{is_below};
ghost use Rattle.siding.specs.Kept.{sizes, Clear, ClearDemands, TrueDemands};

use crate::placed::Placed;
use crate::track::{MOST_SECTIONS, Track};
use std::array;

// The berths of each section less its wagons.
fn own_demands(wagons: &Placed, berths: &Placed) -> [i16; MOST_SECTIONS]
    ensures { (s : ℕ) → s < 512 → slice_index_or result s (pos 0) ≡ pos (slice_index berths.now.in_section s) -ℤ pos (slice_index wagons.now.in_section s) }
{
    array::from_fn(|s| own_demand(berths.in_section[s], wagons.in_section[s]))
}

fn own_demand(berths: u8, wagons: u8) -> i16
    ensures { result ≡ pos berths -ℤ pos wagons }
{
    i16::from(berths) - i16::from(wagons)
}

// The demand of each section, from the highest number down: what a section has is added to its inner neighbour's. The
// loop needs the numbers themselves, since a section's demand goes to another place.
pub(crate) fn demands(track: &Track, wagons: &Placed, berths: &Placed) -> [i16; MOST_SECTIONS]
    requires clear_wagons { Clear track.now.sections wagons.now.in_section }
    requires clear_berths { Clear track.now.sections berths.now.in_section }
    ensures are { TrueDemands track.now.sections track.now.inner wagons.now.in_section berths.now.in_section result }
    ensures clear { ClearDemands track.now.sections result }
{
    let mut demand = own_demands(wagons, berths);
    for s in (1..track.sections).rev() {
        let p = usize::from(track.inner[s]);
        demand[p] += demand[s];
    }
    demand
}

// The sum of the demands without their signs, over all sections but the neck.
pub(crate) fn figure_of(track: &Track, demand: &[i16; MOST_SECTIONS]) -> u32
    requires small { (s : ℕ) → s < track.now.sections → unsigned_abs (slice_index_or demand.now s (pos 0)) ≤ 512 }
    ensures { result ≡ sizes track.now.sections demand.now }
{
    demand[1..track.sections]
        .iter()
        .map(|each| u32::from(each.unsigned_abs()))
        .sum()
}

// The figure once one demand has changed.
pub(crate) fn resized(figure: u32, was: i16, is: i16) -> u32
    requires part { unsigned_abs was ≤ figure }
    requires most { figure ≤ 1000000 }
    requires small { unsigned_abs is ≤ 1000 }
    ensures { result + unsigned_abs was ≡ figure + unsigned_abs is }
{
    figure - u32::from(was.unsigned_abs()) + u32::from(is.unsigned_abs())
}

// Changes the demand by so much at each section on the way inward from `at`, which are those that it lies below,
// and answers the figure after that. The loop counts nothing: it goes where the track leads.
pub(crate) fn shift(
    track: &Track,
    demand: &mut [i16; MOST_SECTIONS],
    figure: u32,
    at: usize,
    by: i16,
) -> u32
    requires within { at < track.now.sections }
    requires one { unsigned_abs by ≤ 1 }
    requires small { (s : ℕ) → s < track.now.sections → unsigned_abs (slice_index_or demand.old s (pos 0)) ≤ 512 }
    requires sums { figure ≡ sizes track.now.sections demand.old }
    ensures demands { (s : ℕ) → s < track.now.sections → slice_index_or demand.new s (pos 0) ≡ slice_index_or demand.old s (pos 0) +ℤ (if is_below track.now.inner s at then by else pos 0) }
    ensures past { (s : ℕ) → track.now.sections ≤ s → slice_index_or demand.new s (pos 0) ≡ slice_index_or demand.old s (pos 0) }
    ensures figure { result ≡ sizes track.now.sections demand.new }
{
    let mut sum = figure;
    let mut u = at;
    while u > 0 {
        let was = demand[u];
        demand[u] = was + by;
        sum = resized(sum, was, demand[u]);
        u = usize::from(track.inner[u]);
    }
    demand[0] += by;
    sum
}
