// Turning the page of a siding.
ghost use Rattle.std.specs.Prelude.{◌≡◌};
ghost use Rattle.motion.specs.State.{page_begun};
ghost use Rattle.siding.specs.Stands.{state_of};

use crate::page::Page;
use crate::siding::Siding;

impl Siding {
    // Begins a page; nothing else changes.
    pub fn turn_page(&mut self)
        ensures { state_of self.new ≡ page_begun (state_of self.old) }
    {
        let mut next = *self;
        next.page = Page::begun(self.figure);
        *self = next;
    }
}
