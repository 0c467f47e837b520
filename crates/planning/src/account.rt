// What a siding says of its moves: the figure, and what its page holds.
ghost use Rattle.std.specs.Prelude.{Some};

use std::fmt;

#[derive(Clone, Copy, PartialEq, Eq, Debug)]
pub struct Account {
    pub figure: u32,
    pub head: u32,
    pub moves: u32,
    pub away: u32,
}

// The four numbers, with a blank between two.
impl fmt::Display for Account {
    ghost use Rattle.planning.specs.Shown.{account_shown};

    ghost output = { λ account. Some (account_shown account) };

    fn fmt<W: fmt::Write>(&self, f: &mut fmt::Formatter<W>) -> fmt::Result {
        let Account {
            figure,
            head,
            moves,
            away,
        } = *self;
        write!(f, "{figure} {head} {moves} {away}")
    }
}
