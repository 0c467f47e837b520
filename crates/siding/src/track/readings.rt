// What can be read off a track.
ghost use Rattle.std.specs.Prelude.{◌≡◌, length};
ghost use Rattle.siding.specs.Kept.{FirstIsLowest, FirstIsBranch};
ghost use Rattle.siding.specs.Stands.{on_track};

use super::{MOST_SECTIONS, Track};
use refusal::Refusal;

impl Track {
    // How many sections there are.
    pub fn sections(&self) -> usize
        ensures { result ≡ self.now.sections }
    {
        self.sections
    }

    // The inner neighbour of each section, section 0 first; 0 for the neck and past the sections.
    pub fn inner(&self) -> &[u16; MOST_SECTIONS]
        ensures { result.now ≡ self.now.inner }
    {
        &self.inner
    }

    // The lowest branch of each section, section 0 first; 0, which is no branch, where it has none and past the sections.
    // A plan copies them whole as the places where its searches begin.
    pub fn lowest_branches(&self) -> &[u16; MOST_SECTIONS]
        ensures long { length result.now ≡ 512 }
        ensures lowest { FirstIsLowest self.now.sections self.now.inner result.now }
        ensures branch { FirstIsBranch self.now.sections self.now.inner result.now }
    {
        &self.first
    }

    // The slot of a section, if there is such a section.
    pub(crate) fn section(&self, section: u16) -> Result<usize, Refusal>
        ensures { result ≡ on_track self.now section section }
    {
        let s = usize::from(section);
        if s >= self.sections {
            return Err(Refusal::NoSection(s));
        }
        Ok(s)
    }
}
