// A move of one wagon, from a section into another.
#[derive(Clone, Copy, PartialEq, Eq, Debug)]
pub struct Move {
    pub from: u16,
    pub to: u16,
}
