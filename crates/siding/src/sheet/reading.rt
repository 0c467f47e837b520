// A sheet's faults, and what its entries and marks say.
ghost use Rattle.std.specs.Prelude.{◌≡◌, ◌*◌, ◌+◌, ◌-◌, ◌/◌, ◌%◌, ◌<◌, ◌≤◌, ◌++◌, not, length, replicate, if◌then◌else◌, Err, MatchResult, ◌==◌, nat_eq, nat_le};
ghost use Rattle.siding.specs.Sheet.{word, inner_of, mark_of, wagons_stated, inner_at_fault, mark_at_fault, lowest, slots, drawn, Faultless};

use super::Sheet;
use crate::track::MOST_SECTIONS;
use refusal::Refusal;
use std::array;

// The mark of a section with a wagon and a berth.
const LARGEST_MARK: u8 = 3;

// The number in two bytes, the high byte first.
fn word_at(bytes: &[u8], at: usize) -> u16
    requires { at + 1 < length bytes.now }
    ensures { result ≡ word bytes.now at }
{
    u16::from_be_bytes([bytes[at], bytes[at + 1]])
}

impl<'a> Sheet<'a> {
    // The sheet of these bytes, if no section of it is at fault.
    pub(crate) fn faultless(bytes: &'a [u8]) -> Result<Sheet<'a>, Refusal>
        ensures { MatchResult result (λ sheet. (sheet.bytes.now ≡ bytes.now) × Faultless sheet.bytes.now sheet.sections) (λ e. drawn bytes.now ≡ Err e) }
    {
        let sheet = Sheet::sized(bytes)?;
        if let Some(s) = sheet.inner_fault() {
            return Err(Refusal::InnerNotLower(s));
        }
        if let Some(s) = sheet.mark_fault() {
            return Err(Refusal::MarkTooLarge(s));
        }
        Ok(sheet)
    }

    // The same, if the bytes are as many as their sections need.
    fn sized(bytes: &'a [u8]) -> Result<Sheet<'a>, Refusal>
        ensures { MatchResult result (λ sheet. sheet.bytes.now ≡ bytes.now) (λ e. drawn bytes.now ≡ Err e) }
    {
        if bytes.len() < 4 {
            return Err(Refusal::SheetLength);
        }
        let sections = usize::from(word_at(bytes, 0));
        if sections == 0 || sections > MOST_SECTIONS {
            return Err(Refusal::SizeOutOfRange);
        }
        if bytes.len() != 4 + 3 * sections {
            return Err(Refusal::SheetLength);
        }
        Ok(Sheet { bytes, sections })
    }

    // The number of wagons that it states.
    pub(crate) fn wagons_stated(&self) -> u16
        ensures { result ≡ wagons_stated self.now.bytes.now }
    {
        word_at(self.bytes, 2)
    }

    // The lowest section whose inner neighbour is at fault.
    fn inner_fault(&self) -> Option<usize>
        ensures { result ≡ lowest (inner_at_fault self.now.bytes.now) self.now.sections }
    {
        (0..self.sections).find(|s| is_wrong(*s, self.inner_of(*s)))
    }

    // The lowest section whose mark is at fault.
    fn mark_fault(&self) -> Option<usize>
        ensures { result ≡ lowest (mark_at_fault self.now.bytes.now) self.now.sections }
    {
        (0..self.sections).find(|s| self.mark_of(*s) > LARGEST_MARK)
    }

    // The inner neighbour of a section.
    fn inner_of(&self, s: usize) -> u16
        requires { s < self.now.sections }
        ensures { result ≡ inner_of self.now.bytes.now s }
    {
        word_at(self.bytes, 4 + 2 * s)
    }

    // The mark of a section.
    fn mark_of(&self, s: usize) -> u8
        requires { s < self.now.sections }
        ensures { result ≡ mark_of self.now.bytes.now s }
    {
        self.bytes[4 + 2 * self.sections + s]
    }

    // The inner neighbour of each section. The bytes are copied first, with zeros past the sections, so that one array is
    // made of another with no test for each slot.
    pub(crate) fn inner(&self) -> [u16; MOST_SECTIONS]
        ensures { result ≡ slots self.now.sections (inner_of self.now.bytes.now) }
    {
        let pairs: [u8; 2 * MOST_SECTIONS] = padded(&self.bytes[4..4 + 2 * self.sections]);
        array::from_fn(|s| u16::from_be_bytes([pairs[2 * s], pairs[2 * s + 1]]))
    }

    // The mark of each section.
    fn marks(&self) -> [u8; MOST_SECTIONS]
        ensures { result ≡ slots self.now.sections (mark_of self.now.bytes.now) }
    {
        padded(&self.bytes[4 + 2 * self.sections..])
    }

    // How many wagons each section has: a wagon makes a mark odd.
    pub(crate) fn wagons(&self) -> [u8; MOST_SECTIONS]
        ensures { result ≡ slots self.now.sections (λ s. mark_of self.now.bytes.now s % 2) }
    {
        let marks = self.marks();
        array::from_fn(|s| marks[s] % 2)
    }

    // How many berths each section has: a berth adds 2 to a mark.
    pub(crate) fn berths(&self) -> [u8; MOST_SECTIONS]
        ensures { result ≡ slots self.now.sections (λ s. mark_of self.now.bytes.now s / 2) }
    {
        let marks = self.marks();
        array::from_fn(|s| marks[s] / 2)
    }
}

// The bytes of a list, and zeros past them.
fn padded<const SIZE: usize>(list: &[u8]) -> [u8; SIZE]
    requires { length list.now ≤ SIZE }
    ensures { result ≡ list.now ++ replicate (SIZE - length list.now) 0 }
{
    let mut slots = [0; SIZE];
    slots[..list.len()].copy_from_slice(list);
    slots
}

// Whether the section may not have this inner neighbour.
fn is_wrong(s: usize, inner: u16) -> bool
    ensures { result ≡ (if nat_eq s 0 then not (inner == 0) else nat_le s inner) }
{
    if s == 0 {
        inner != 0
    } else {
        usize::from(inner) >= s
    }
}
