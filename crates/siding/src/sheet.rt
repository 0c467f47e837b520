// A sheet of a size that a siding has.
ghost use Rattle.std.specs.Prelude.{◌≡◌, ◌≤◌, length};
ghost use Rattle.siding.specs.Sheet.{sections_of, sheet_size};

// The bytes, and how many sections they are for.
#[derive(Clone, Copy)]
pub(crate) struct Sheet<'a> {
    bytes: &'a [u8],
    pub(crate) sections: usize,
    ghost stated: { sections ≡ sections_of bytes.now },
    ghost some: { 1 ≤ sections },
    ghost most: { sections ≤ 512 },
    ghost size: { length bytes.now ≡ sheet_size sections },
}

mod reading;
