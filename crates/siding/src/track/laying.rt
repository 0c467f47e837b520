// Laying a track from the inner neighbours of its sections.
ghost use Rattle.std.specs.Prelude.{◌≡◌, ◌≤◌};
ghost use Rattle.motion.specs.Tree.{Tree};
ghost use Rattle.siding.specs.Kept.{Clear};

use super::{MOST_SECTIONS, Track};

impl Track {
    // Links the branches, from the highest section down: each becomes the lowest branch of its inner neighbour so far.
    // The loop goes by number, since the number is what the links hold.
    pub(crate) fn laid(sections: usize, inner: [u16; MOST_SECTIONS]) -> Track
        requires some { 1 ≤ sections }
        requires most { sections ≤ 512 }
        requires tree { Tree sections inner }
        requires clear { Clear sections inner }
        ensures sections { result.sections ≡ sections }
        ensures inner { result.inner ≡ inner }
    {
        let mut first = [0u16; MOST_SECTIONS];
        let mut next = [0u16; MOST_SECTIONS];
        for s in (1..sections).rev() {
            let p = usize::from(inner[s]);
            next[s] = first[p];
            // the section fits: a refusal of `TryFrom` could not come
            first[p] = s as u16;
        }
        Track {
            sections,
            inner,
            first,
            next,
        }
    }
}
