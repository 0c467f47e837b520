// Tables of one entry for each section, from lists.
ghost use Rattle.std.specs.Prelude.{◌≡◌, ◌-◌, ◌≤◌, ◌++◌, length, replicate, MatchOption};
ghost use Rattle.tariff.specs.Tables.{table_size, AllShort, LowestTooLong};

// The sections of a table.
pub(crate) const TABLE_SIZE: usize = 512;

// The most metres of a section.
const LONGEST: u16 = 9_999;

// The lowest section that is too long.
pub(crate) fn too_long(lengths: &[u16]) -> Option<usize>
    ensures { MatchOption result (AllShort lengths.now) (λ s. LowestTooLong lengths.now s) }
{
    lengths.iter().position(|length| *length > LONGEST)
}

// The table of a list, with a blank for each section that the list misses.
pub(crate) fn table<T: Copy>(list: &[T], blank: T) -> [T; TABLE_SIZE]
    requires { length list.now ≤ table_size }
    ensures { result ≡ list.now ++ replicate (table_size - length list.now) blank }
{
    let mut table = [blank; TABLE_SIZE];
    table[..list.len()].copy_from_slice(list);
    table
}
