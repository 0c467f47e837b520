// Writing the sheet of a siding.
ghost use Rattle.std.specs.Prelude.{◌≡◌, ◌+◌, ◌*◌, ◌<◌, ◌≤◌, map, length, take, IfOk, Ok, MatchResult, slice_index};
ghost use Rattle.std.specs.List.{range_with_len, flat_map};
ghost use Rattle.refusal.specs.declared.Refusal.TheVariants.{OutOfRoom};
ghost use Rattle.motion.specs.State.{page_begun};
ghost use Rattle.siding.specs.Sheet.{drawn, sheet_size, sheet_of, two_bytes, mark, overwritten};
ghost use Rattle.siding.specs.Stands.{state_of};

use crate::siding::Siding;
use refusal::Refusal;

impl Siding {
    // Writes the sheet at the start of the buffer and answers its length; the bytes after it stay.
    pub fn write_sheet(&self, buffer: &mut [u8]) -> Result<usize, Refusal>
        ensures written { MatchResult result (λ size. (size ≡ length (sheet_of (state_of self.now))) × (buffer.new ≡ overwritten buffer.old 0 (sheet_of (state_of self.now)))) (λ e. (e ≡ OutOfRoom) × (length buffer.old < sheet_size (state_of self.now).sections) × (buffer.new ≡ buffer.old)) }
        ensures sheet_round_trip { IfOk result (λ size. drawn (take size buffer.new) ≡ Ok (page_begun (state_of self.now))) }
    {
        let size = 4 + 3 * self.track.sections;
        if buffer.len() < size {
            return Err(Refusal::OutOfRoom);
        }
        // the number fits: a refusal of `TryFrom` could not come
        put_word(buffer, 0, self.track.sections as u16);
        put_word(buffer, 2, self.wagons.in_all);
        self.put_inner(buffer);
        self.put_marks(buffer);
        Ok(size)
    }

    // Writes the inner neighbour of each section, two bytes each. By number: after a loop over the buffer's own chunks,
    // zipped with the sections, nothing is known of what was written.
    fn put_inner(&self, buffer: &mut [u8])
        requires { sheet_size self.now.track.sections ≤ length buffer.old }
        ensures { buffer.new ≡ overwritten buffer.old 4 (flat_map (λ s. two_bytes (slice_index self.now.track.inner s)) (range_with_len 0 self.now.track.sections)) }
    {
        for s in 0..self.track.sections {
            put_word(buffer, 4 + 2 * s, self.track.inner[s]);
        }
    }

    // Writes the mark of each section, by number likewise.
    fn put_marks(&self, buffer: &mut [u8])
        requires { sheet_size self.now.track.sections ≤ length buffer.old }
        ensures { buffer.new ≡ overwritten buffer.old (4 + 2 * self.now.track.sections) (map (mark (state_of self.now)) (range_with_len 0 self.now.track.sections)) }
    {
        for s in 0..self.track.sections {
            buffer[4 + 2 * self.track.sections + s] = self.mark_at(s);
        }
    }
}

// Writes a number into two bytes, the high byte first.
fn put_word(buffer: &mut [u8], at: usize, value: u16)
    requires { at + 1 < length buffer.old }
    ensures { buffer.new ≡ overwritten buffer.old at (two_bytes value) }
{
    buffer[at..at + 2].copy_from_slice(&value.to_be_bytes());
}
