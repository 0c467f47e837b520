// The two ways in which a section hands on: it passes a wagon outward to a branch, or draws one inward from a branch.
ghost use Rattle.std.specs.Prelude.{◌≡◌, ◌↔◌, IsTrue};
ghost use Rattle.motion.specs.Due.{Asked, CanBegin, CanEnd, asked_for, over};

use crate::moves::Move;

#[derive(Clone, Copy, PartialEq, Eq, Debug)]
pub enum Way {
    Outward,
    Inward,
}

impl Way {
    // Which way a section that holds so many wagons can hand on.
    pub fn of(wagons: u8) -> Way
        ensures { CanBegin result wagons }
    {
        if wagons > 0 {
            Way::Outward
        } else {
            Way::Inward
        }
    }

    // Whether a branch that holds so many wagons can be the outer end of a move this way.
    pub fn is_open(self, wagons: u8) -> bool
        ensures { IsTrue result ↔ CanEnd self wagons }
    {
        match self {
            Way::Outward => wagons == 0,
            Way::Inward => wagons > 0,
        }
    }

    // How many moves this way a branch with this demand asks for.
    pub fn asked_for(self, demand: i16) -> u16
        ensures { result ≡ asked_for self demand }
    {
        if self.asks(demand) {
            demand.unsigned_abs()
        } else {
            0
        }
    }

    // Whether a branch with this demand asks for a move this way.
    pub fn asks(self, demand: i16) -> bool
        ensures { IsTrue result ↔ Asked self demand }
    {
        match self {
            Way::Outward => demand > 0,
            Way::Inward => demand < 0,
        }
    }

    // The move between a section and its branch.
    pub fn move_over(self, section: u16, branch: u16) -> Move
        ensures { result ≡ over self section branch }
    {
        match self {
            Way::Outward => Move {
                from: section,
                to: branch,
            },
            Way::Inward => Move {
                from: branch,
                to: section,
            },
        }
    }
}
