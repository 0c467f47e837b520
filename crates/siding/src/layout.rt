// What a siding keeps of its sections, lent to those who plan and check on a copy of its wagons.
use crate::track::{MOST_SECTIONS, Track};

// The arrays have a slot for each section, section 0 first: how many wagons it holds, how many are wanted there, and its
// demand.
#[derive(Clone, Copy)]
pub struct Layout<'a> {
    pub track: &'a Track,
    pub wagons: &'a [u8; MOST_SECTIONS],
    pub berths: &'a [u8; MOST_SECTIONS],
    pub demand: &'a [i16; MOST_SECTIONS],
}
