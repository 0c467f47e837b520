// What can be done with a list.
ghost use Rattle.std.specs.Prelude.{◌≡◌, ◌+◌, ◌<◌, ◌≤◌, [], ◌∷◌, ◌++◌, length, MatchOption, slice_index_or, slice_set};
ghost use Rattle.lists.specs.Held.{held, SameSlice, Added};

use super::List;
use refusal::Refusal;

impl<'a, T: Copy> List<'a, T> {
    // A list with no entries yet.
    pub fn new(slots: &'a mut [T]) -> List<'a, T>
        ensures empty { result.len ≡ 0 }
        ensures slots { result.slots.now ≡ slots.old }
        ensures lender { result.slots.ghost_name ≡ slots.entry.ghost_name }
    {
        List { slots, len: 0 }
    }

    // Takes all entries out; every slot keeps what it holds.
    pub fn clear(&mut self)
        ensures len { self.new.len ≡ 0 }
        ensures slots { self.new.slots.now ≡ self.old.slots.now }
        ensures slice { SameSlice self.old self.new }
    {
        self.len = 0;
    }

    // Adds an entry after the last one.
    pub fn add(&mut self, entry: T) -> Result<(), Refusal>
        ensures added { Added entry self.old self.new result }
        ensures slice { SameSlice self.old self.new }
    {
        if self.room() == 0 {
            return Err(Refusal::OutOfRoom);
        }
        self.put(entry);
        Ok(())
    }

    // The same where there is room.
    pub(crate) fn put(&mut self, entry: T)
        requires { self.old.len < length self.old.slots.now }
        ensures held { held self.new ≡ held self.old ++ (entry ∷ []) }
        ensures len { self.new.len ≡ self.old.len + 1 }
        ensures slots { self.new.slots.now ≡ slice_set self.old.slots.now self.old.len entry }
        ensures slice { SameSlice self.old self.new }
    {
        self.slots[self.len] = entry;
        self.len += 1;
    }

    // How many entries there are.
    pub fn len(&self) -> usize
        ensures { result ≡ length (held self.now) }
    {
        self.entries().len()
    }

    // How many more fit.
    pub fn room(&self) -> usize
        ensures { self.now.len + result ≡ length self.now.slots.now }
    {
        self.slots.len() - self.len
    }

    // The entry at an index from 0, if there is one.
    pub fn entry(&self, index: usize) -> Option<T>
        ensures { MatchOption result (length (held self.now) ≤ index) (λ x. (index < length (held self.now)) × (x ≡ slice_index_or (held self.now) index x)) }
    {
        self.entries().get(index).copied()
    }

    // All entries, the first one first.
    pub fn entries(&self) -> &[T]
        ensures { result.now ≡ held self.now }
    {
        &self.slots[0..self.len]
    }
}
