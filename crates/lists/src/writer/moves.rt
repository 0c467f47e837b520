// The moves themselves are written.
ghost use Rattle.lists.specs.Writing.{moves_writer};

use super::EachMove;
use motion::moves::Move;

#[derive(Clone, Copy)]
pub(crate) struct Moves;

impl EachMove for Moves {
    type Entry = Move;

    ghost writer = { moves_writer };

    fn write(&mut self, m: Move) -> Move {
        m
    }
}
