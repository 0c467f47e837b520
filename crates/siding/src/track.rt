// The track of a siding: the tree of its sections.
ghost use Rattle.std.specs.Prelude.{◌≡◌, ℕ, ◌<◌, ◌≤◌, length, slice_index};
ghost use Rattle.siding.specs.Kept.{Clear, FirstIsLowest, FirstIsBranch, NextIsLowest, NextIsBranch};

// The most sections of a siding.
pub const MOST_SECTIONS: usize = 512;

// Every array has a slot for each section, section 0 first; the slots past them hold 0.
#[derive(Clone, Copy)]
pub struct Track {
    pub(crate) sections: usize,
    // the inner neighbour of each section
    pub(crate) inner: [u16; MOST_SECTIONS],
    // the lowest branch of each section, and the next higher branch of its inner neighbour; 0 where there is none, and no
    // Option: no branch is section 0. Memory is fixed, so the tree is kept in arrays; `Branches` is all that follows
    // these links
    first: [u16; MOST_SECTIONS],
    next: [u16; MOST_SECTIONS],
    ghost long: { (length inner ≡ 512) × (length first ≡ 512) × (length next ≡ 512) },
    ghost some: { 1 ≤ sections },
    ghost most: { sections ≤ 512 },
    ghost neck: { slice_index inner 0 ≡ 0 },
    ghost lower: { (s : ℕ) → 0 < s → s < sections → slice_index inner s < s },
    ghost clear: { Clear sections inner },
    ghost first_lowest: { FirstIsLowest sections inner first },
    ghost first_branch: { FirstIsBranch sections inner first },
    ghost next_lowest: { NextIsLowest sections inner next },
    ghost next_branch: { NextIsBranch sections inner next },
}

pub mod branches;
mod laying;
mod moves;
mod readings;
