// From a number to its standing.
ghost use Rattle.std.specs.Prelude.{◌≡◌, ◌<◌, ◌≤◌, true, false, length, take, drop, IfOk, IfErr, MatchResult};
ghost use Rattle.standing.specs.Choose.{choose};
ghost use Rattle.standing.specs.Number.{out_of_range};
ghost use Rattle.standing.specs.Standings.{Stands, NumbersAreDense, NumbersRoundTrip, count_of, writing_of};

use crate::choices::choices;
use crate::size::test_size;
use refusal::Refusal;

// How many standings of n sections with k wagons there are. Their numbers are all that are below it.
pub fn standings(n: usize, k: usize) -> Result<u64, Refusal>
    ensures answer { result ≡ count_of n k }
    ensures numbers_are_dense { IfOk result (λ count. NumbersAreDense n k count) }
{
    let family = Family::new(n, k)?;
    Ok(family.count())
}

// Writes the standing of n sections with k wagons that has this number at the start of the buffer; the bytes after it stay.
pub fn write_standing(n: usize, k: usize, number: u64, buffer: &mut [u8]) -> Result<(), Refusal>
    ensures answer { result ≡ writing_of n k number (length buffer.old) }
    ensures kept { MatchResult result (λ _. drop n buffer.new ≡ drop n buffer.old) (λ _. buffer.new ≡ buffer.old) }
    ensures numbers_round_trip { NumbersRoundTrip n k number buffer.old buffer.new result }
{
    let family = Family::new(n, k)?;
    family.test_writing(number, buffer.len())?;
    family.write(number, buffer);
    Ok(())
}

// The standings of so many sections with so many wagons.
#[derive(Clone, Copy)]
struct Family {
    sections: usize,
    wagons: usize,
    ghost in_range: { out_of_range sections ≡ false },
}

impl Family {
    fn new(sections: usize, wagons: usize) -> Result<Family, Refusal>
        ensures made { IfOk result (λ f. (f.sections ≡ sections) × (f.wagons ≡ wagons)) }
        ensures refused { IfErr result (λ e. (out_of_range sections ≡ true) × (e ≡ Refusal.SizeOutOfRange)) }
    {
        test_size(sections)?;
        Ok(Family { sections, wagons })
    }

    // How many they are.
    fn count(&self) -> u64
        ensures { result ≡ choose self.now.sections self.now.wagons }
    {
        choices(self.sections, self.wagons)
    }

    // Whether one of them has this number, and there is room for it.
    fn test_writing(&self, number: u64, room: usize) -> Result<(), Refusal>
        ensures { result ≡ writing_of self.now.sections self.now.wagons number room }
    {
        if self.wagons > self.sections || number >= self.count() {
            return Err(Refusal::NoStanding);
        }
        if room < self.sections {
            return Err(Refusal::OutOfRoom);
        }
        Ok(())
    }

    // Writes the standing from its last section to its first. Among the standings of the sections up to this one
    // with the wagons that are left, those with this section empty have the lower numbers.
    fn write(&self, number: u64, buffer: &mut [u8])
        requires fits { number < choose self.now.sections self.now.wagons }
        requires room { self.now.sections ≤ length buffer.old }
        ensures placed { Stands self.now.sections self.now.wagons number (take self.now.sections buffer.new) }
        ensures rest { drop self.now.sections buffer.new ≡ drop self.now.sections buffer.old }
    {
        let mut wagons = self.wagons;
        let mut left = number;
        // By number: after a loop over iter_mut().enumerate().rev() nothing is known of what was written.
        for section in (0..self.sections).rev() {
            let with_it_empty = choices(section, wagons);
            if left < with_it_empty {
                buffer[section] = 0;
            } else {
                buffer[section] = 1;
                wagons -= 1;
                left -= with_it_empty;
            }
        }
    }
}
