// A move on a copy of the wagons.
ghost use Rattle.std.specs.Prelude.{◌≡◌, ◌<◌, slice_index};
ghost use Rattle.motion.specs.Moves.{moved};

use motion::moves::Move;
use siding::track::MOST_SECTIONS;

// Takes one wagon from a section into another that is empty. As `carry` of `siding`, which says why they are two.
pub(crate) fn move_wagon(wagons: &mut [u8; MOST_SECTIONS], m: Move)
    requires within { (m.from < 512) × (m.to < 512) }
    requires there { 0 < slice_index wagons.old m.from }
    requires free { slice_index wagons.old m.to ≡ 0 }
    ensures { wagons.new ≡ moved wagons.old m }
{
    wagons[usize::from(m.from)] -= 1;
    wagons[usize::from(m.to)] += 1;
}
