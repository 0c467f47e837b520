// Why a call is refused: one case for each reason, named for what is wrong.
#![tactic(auto)]

ghost use Rattle.std.specs.Prelude.{◌≡◌, Some};
ghost use Rattle.refusal.specs.Number.{number_of, place_of, at_place, shown_of};

use std::fmt;

// A case with a place holds the section, the number or the index that is at fault.
#[derive(Clone, Copy, PartialEq, Eq, Debug)]
pub enum Refusal {
    // the sheet has fewer than 4 bytes, or not 4 + 3n
    SheetLength,
    // no sections, or more than there may be
    SizeOutOfRange,
    // the neck's inner neighbour is not 0, or another section's is not lower than it
    InnerNotLower(usize),
    // a mark or a byte of a standing is larger than its largest value
    MarkTooLarge(usize),
    // the sheet states another number of wagons than its marks have
    WagonsMiscounted,
    // there is no such section
    NoSection(usize),
    // the section has a wagon, or a berth, already
    AlreadyThere(usize),
    // the section has no wagon, or no berth
    NotThere(usize),
    // the two sections of a move share no edge
    NotNeighbours(usize),
    // there are not as many wagons as berths
    NumbersDiffer,
    // the page has as many moves as a page may have
    PageFull,
    // a list or a buffer is shorter than what must be written, or a day's input is too long
    OutOfRoom,
    // a berth stays empty
    BerthEmpty(usize),
    // no standing has this number
    NoStanding,
    // the line is none that a day has
    BadLine,
    // the length of a section is larger than the largest length
    LengthTooLarge(usize),
}

impl Refusal {
    // The number by which the refusal is known outside the program.
    // A method and no From: a u8 made from a refusal would not say which of its two numbers it is.
    pub fn number(&self) -> u8
        ensures { result ≡ number_of self.now }
    {
        match self {
            Refusal::SheetLength => 1,
            Refusal::SizeOutOfRange => 2,
            Refusal::InnerNotLower(_) => 3,
            Refusal::MarkTooLarge(_) => 4,
            Refusal::WagonsMiscounted => 5,
            Refusal::NoSection(_) => 6,
            Refusal::AlreadyThere(_) => 7,
            Refusal::NotThere(_) => 8,
            Refusal::NotNeighbours(_) => 9,
            Refusal::NumbersDiffer => 10,
            Refusal::PageFull => 11,
            Refusal::OutOfRoom => 12,
            Refusal::BerthEmpty(_) => 13,
            Refusal::NoStanding => 14,
            Refusal::BadLine => 15,
            Refusal::LengthTooLarge(_) => 16,
        }
    }

    // What is at fault; 0, and not None, where the refusal names no place, as the table of refusals has it.
    pub fn place(&self) -> usize
        ensures { result ≡ place_of self.now }
    {
        match self {
            Refusal::InnerNotLower(place)
            | Refusal::MarkTooLarge(place)
            | Refusal::NoSection(place)
            | Refusal::AlreadyThere(place)
            | Refusal::NotThere(place)
            | Refusal::NotNeighbours(place)
            | Refusal::BerthEmpty(place)
            | Refusal::LengthTooLarge(place) => *place,
            Refusal::SheetLength
            | Refusal::SizeOutOfRange
            | Refusal::WagonsMiscounted
            | Refusal::NumbersDiffer
            | Refusal::PageFull
            | Refusal::OutOfRoom
            | Refusal::NoStanding
            | Refusal::BadLine => 0,
        }
    }

    // The same refusal, at this place where it names one.
    pub fn at(self, place: usize) -> Refusal
        ensures { result ≡ at_place self place }
    {
        match self {
            Refusal::InnerNotLower(_) => Refusal::InnerNotLower(place),
            Refusal::MarkTooLarge(_) => Refusal::MarkTooLarge(place),
            Refusal::NoSection(_) => Refusal::NoSection(place),
            Refusal::AlreadyThere(_) => Refusal::AlreadyThere(place),
            Refusal::NotThere(_) => Refusal::NotThere(place),
            Refusal::NotNeighbours(_) => Refusal::NotNeighbours(place),
            Refusal::BerthEmpty(_) => Refusal::BerthEmpty(place),
            Refusal::LengthTooLarge(_) => Refusal::LengthTooLarge(place),
            Refusal::SheetLength
            | Refusal::SizeOutOfRange
            | Refusal::WagonsMiscounted
            | Refusal::NumbersDiffer
            | Refusal::PageFull
            | Refusal::OutOfRoom
            | Refusal::NoStanding
            | Refusal::BadLine => self,
        }
    }
}

// The number, a blank, and the place.
impl fmt::Display for Refusal {
    ghost output = { λ x. Some (shown_of x) };

    fn fmt<W: fmt::Write>(&self, f: &mut fmt::Formatter<W>) -> fmt::Result {
        let number = self.number();
        let place = self.place();
        write!(f, "{number} {place}")
    }
}
