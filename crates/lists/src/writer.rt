// What is written for each move while moves are made.
ghost use Rattle.std.specs.Prelude.{◌≡◌};
ghost use Rattle.lists.specs.Writing.{Writer};

use motion::moves::Move;

pub(crate) mod moves;
pub(crate) mod running;

// A trait and no closure: the ghost member says in one word what a writer is after each move, where a contract on a
// closure that adds to a captured sum could only follow its calls one by one.
pub(crate) trait EachMove {
    type Entry: Copy;

    // what it writes, and what it is afterwards
    ghost writer: { Writer Self Self.Entry };

    fn write(&mut self, m: Move) -> Self::Entry
        ensures entry { result ≡ writer.entry self.old m }
        ensures next { self.new ≡ writer.next self.old m };
}
