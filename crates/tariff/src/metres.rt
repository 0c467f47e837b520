// The tariff of metres: a length for each section.
ghost use Rattle.std.specs.Prelude.{ℕ, ◌<◌, ◌≤◌, slice_index};
ghost use Rattle.tariff.specs.Tables.{longest, table_size};

use crate::table::TABLE_SIZE;

pub mod lengths;

#[derive(Clone, Copy)]
pub struct Metres {
    lengths: [u16; TABLE_SIZE],
    ghost short: { (s : ℕ) → s < table_size → slice_index lengths s ≤ longest },
}
