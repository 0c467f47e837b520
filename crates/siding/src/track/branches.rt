// The branches of a section, one after another.
ghost use Rattle.std.specs.Prelude.{◌≡◌, ◌<◌, ◌-◌};

use super::Track;

// The branches of one section that are still to come, in rising order.
#[derive(Clone, Copy)]
pub struct Branches<'a> {
    track: &'a Track,
    // the next one; 0, which is no branch, past the last, as the links have it
    at: usize,
    ghost within: { at < track.now.sections },
}

mod walking;
