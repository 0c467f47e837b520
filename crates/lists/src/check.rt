// The check of a list of moves that somebody brings.
ghost use Rattle.std.specs.Prelude.{◌≡◌};
ghost use Rattle.siding.specs.Stands.{state_of};
ghost use Rattle.lists.specs.Check.{Checked, NoOther, CheckIsExact, Tried, Followed, Sought};
ghost use Rattle.lists.specs.Held.{held};

use crate::list::List;
use crate::moving::move_wagon;
use motion::moves::Move;
use refusal::Refusal;
use siding::Siding;
use siding::track::{MOST_SECTIONS, Track};

// Accepts a list of legal moves that leaves no berth empty, and answers how many moves it has; else says what is wrong.
// The moves are followed on a copy of the wagons, so the check costs as much as there are sections and moves.
pub fn check(siding: &Siding, list: &List<Move>) -> Result<usize, Refusal>
    ensures checked { Checked (state_of siding.now) (held list.now) result }
    ensures no_other { NoOther (state_of siding.now) (held list.now) result }
    ensures check_is_exact { CheckIsExact (state_of siding.now) (held list.now) result }
{
    verdict(siding, list.entries())
}

// The same of any moves.
fn verdict(siding: &Siding, moves: &[Move]) -> Result<usize, Refusal>
    ensures { Checked (state_of siding.now) moves.now result }
{
    siding.test_numbers()?;
    let layout = siding.layout();
    let wagons = follow(layout.track, layout.wagons, moves)?;
    match lowest_empty(layout.track, &wagons, layout.berths) {
        Some(berth) => Err(Refusal::BerthEmpty(berth)),
        None => Ok(moves.len()),
    }
}

// Where the moves lead, one after another, if each is legal there.
fn follow(
    track: &Track,
    start: &[u8; MOST_SECTIONS],
    moves: &[Move],
) -> Result<[u8; MOST_SECTIONS], Refusal>
    ensures { Followed track.now.sections track.now.inner start.now moves.now result }
{
    let mut wagons = *start;
    for (index, each) in moves.iter().enumerate() {
        may_move(track, &wagons, *each, index)?;
        move_wagon(&mut wagons, *each);
    }
    Ok(wagons)
}

// The refusal of the move at an index, if it meets one where the wagons stand so.
fn may_move(
    track: &Track,
    wagons: &[u8; MOST_SECTIONS],
    each: Move,
    index: usize,
) -> Result<(), Refusal>
    ensures { Tried track.now.sections track.now.inner wagons.now each index result }
{
    track
        .test_move(wagons, each)
        .map_err(|refusal| refusal.at(index))
}

// The lowest section whose berth is empty.
fn lowest_empty(
    track: &Track,
    wagons: &[u8; MOST_SECTIONS],
    berths: &[u8; MOST_SECTIONS],
) -> Option<usize>
    ensures { Sought track.now.sections wagons.now berths.now result }
{
    (0..track.sections()).find(|s| wagons[*s] < berths[*s])
}
