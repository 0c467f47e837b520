// The wagons of a siding while their moves are planned, apart from the siding itself, which stays as it is.
ghost use Rattle.std.specs.Prelude.{◌≡◌, ℕ, length, slice_index};
ghost use Rattle.motion.specs.declared.ways.Way.TheVariants.{Outward, Inward};
ghost use Rattle.motion.specs.Tree.{total};
ghost use Rattle.motion.specs.Demand.{Single};
ghost use Rattle.motion.specs.State.{EqualNumbers};
ghost use Rattle.siding.specs.Kept.{TrueDemands};
ghost use Rattle.siding.specs.Stands.{state_of};
ghost use Rattle.lists.specs.Cursors.{AtBranches, IsLowestBranch, PassedAskNot};

use siding::Siding;
use siding::track::MOST_SECTIONS;

mod balancing;
mod carrying;
mod searching;

// Sections are bare numbers: a type that tied one to the siding would borrow the planner that each call changes.
// Wherever the wagons are by now, there are as many as berths, the demands are true, and no branch asks that a cursor
// has passed.
#[derive(Drop)]
pub(crate) struct Planner<'a> {
    // never replaced; each method says so, since a `&mut` could
    siding: &'a Siding,
    // how many wagons each section holds by now, and its demand
    wagons: [u8; MOST_SECTIONS],
    demand: [i16; MOST_SECTIONS],
    // the cursors: for each section and either way, the branch that the search for one that asks has come to; 0, and no
    // Option, past the last: no branch is section 0. While moves are planned a demand only comes nearer to 0, so a branch that does not ask
    // never asks again, and the search goes on from there. There is an array for each way, and none is lent for writing:
    // what is kept of it would have to hold of whatever the borrower writes
    outward: [u16; MOST_SECTIONS],
    inward: [u16; MOST_SECTIONS],
    ghost long: { (length wagons ≡ 512) × (length demand ≡ 512) },
    ghost long_too: { (length outward ≡ 512) × (length inward ≡ 512) },
    ghost one_wagon: { Single siding.now.track.sections wagons },
    ghost equal: { total siding.now.track.sections wagons ≡ total siding.now.track.sections siding.now.berths.in_section },
    ghost demands: { TrueDemands siding.now.track.sections siding.now.track.inner wagons siding.now.berths.in_section demand },
    ghost outward_at: { AtBranches siding.now.track.sections siding.now.track.inner outward },
    ghost inward_at: { AtBranches siding.now.track.sections siding.now.track.inner inward },
    ghost outward_passed: { PassedAskNot Outward siding.now.track.sections siding.now.track.inner demand outward },
    ghost inward_passed: { PassedAskNot Inward siding.now.track.sections siding.now.track.inner demand inward },
}

impl<'a> Planner<'a> {
    // The planner of a siding before its first move: the cursors stand at the first branches.
    pub(crate) fn new(siding: &'a Siding) -> Planner<'a>
        requires { EqualNumbers (state_of siding.now) }
        ensures siding { result.siding.now ≡ siding.now }
        ensures wagons { result.wagons ≡ siding.now.wagons.in_section }
        ensures demand { result.demand ≡ siding.now.demand }
        ensures outward { (u : ℕ) → IsLowestBranch siding.now.track.sections siding.now.track.inner u (slice_index result.outward u) }
        ensures inward { (u : ℕ) → IsLowestBranch siding.now.track.sections siding.now.track.inner u (slice_index result.inward u) }
    {
        let layout = siding.layout();
        let first = layout.track.lowest_branches();
        Planner {
            siding,
            wagons: *layout.wagons,
            demand: *layout.demand,
            outward: *first,
            inward: *first,
        }
    }
}
