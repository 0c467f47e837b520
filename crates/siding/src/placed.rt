// What stands in the sections of a siding, its wagons or its berths.
ghost use Rattle.std.specs.Prelude.{◌≡◌, ℕ, ◌≤◌, length, slice_index, sum};

use crate::track::MOST_SECTIONS;

// How many there are in each section, section 0 first and at most one to a section, and how many in all.
#[derive(Clone, Copy)]
pub(crate) struct Placed {
    pub(crate) in_section: [u8; MOST_SECTIONS],
    pub(crate) in_all: u16,
    ghost long: { length in_section ≡ 512 },
    ghost single: { (s : ℕ) → slice_index in_section s ≤ 1 },
    ghost counted: { in_all ≡ sum in_section },
}

mod changes;
