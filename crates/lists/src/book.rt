// A book: a list, with the writer that knows what is entered in it for each move. Both are borrowed: of a book that held
// a writer of any type by value, the checker could not say what is left behind its list.
ghost use Rattle.std.specs.Prelude.{◌≡◌, [], ◌∷◌};
ghost use Rattle.lists.specs.Writing.{Wrote, HasSlot};

use crate::list::List;
use crate::writer::EachMove;
use motion::moves::Move;

#[derive(Drop)]
pub(crate) struct Book<'a, 'b, W: EachMove> {
    pub(crate) writer: &'a mut W,
    pub(crate) list: &'a mut List<'b, W::Entry>,
}

impl<W: EachMove> Book<'_, '_, W> {
    // Writes the entry for a move.
    pub(crate) fn enter(&mut self, m: Move)
        requires { HasSlot self.old }
        ensures { Wrote W.EachMove.writer self.old (m ∷ []) self.new }
    {
        let entry = self.writer.write(m);
        self.list.put(entry);
    }
}
