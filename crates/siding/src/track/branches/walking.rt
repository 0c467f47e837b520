// Walking along the branches of a section.
ghost use Rattle.std.specs.Prelude.{◌≡◌, length};
ghost use Rattle.std.specs.Iterator.{YieldsFirst, item_count};
ghost use Rattle.siding.specs.Branches.{row, branches_of, row_from};

use super::Branches;
use crate::track::Track;

impl<'a> Iterator for Branches<'a> {
    type Item = usize;

    ghost next_gives = { YieldsFirst row };

    ghost remaining = { item_count row };

    fn next(&mut self) -> Option<usize> {
        let branch = self.at;
        if branch == 0 {
            return None;
        }
        self.at = usize::from(self.track.next[branch]);
        Some(branch)
    }
}

impl Track {
    // The branches of a section; none where there is no such section.
    pub fn branches(&self, section: usize) -> Branches<'_>
        ensures { row result ≡ branches_of self.now section }
    {
        let at = if section < self.sections {
            usize::from(self.first[section])
        } else {
            0
        };
        Branches { track: self, at }
    }

    // A branch and the higher ones of the same section; none for the neck, and where there is no such section.
    pub fn branches_from(&self, branch: usize) -> Branches<'_>
        ensures { row result ≡ row_from self.now branch }
    {
        let at = if branch < self.sections { branch } else { 0 };
        Branches { track: self, at }
    }
}
