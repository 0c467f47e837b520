// From a standing to its number.
ghost use Rattle.std.specs.Prelude.{◌≡◌};
ghost use Rattle.standing.specs.Number.{number_of};

use crate::choices::choices;
use crate::size::test_size;
use refusal::Refusal;

// How many wagons a standing has, and its number among the standings of as many sections and wagons.
#[derive(Clone, Copy, PartialEq, Eq, Debug)]
pub struct Numbered {
    pub wagons: usize,
    pub number: u64,
}

// Numbers a standing: a byte for each section, 1 where a wagon stands and 0 elsewhere.
pub fn number(standing: &[u8]) -> Result<Numbered, Refusal>
    ensures { result ≡ number_of standing.now }
{
    test_size(standing.len())?;
    let mut wagons = 0;
    let mut number = 0;
    // A loop: each sum fits because of the bytes before it, and in the closure of a try_fold that was not proved.
    for (section, mark) in standing.iter().enumerate() {
        match *mark {
            0 => {}
            1 => {
                wagons += 1;
                number += choices(section, wagons);
            }
            _ => return Err(Refusal::MarkTooLarge(section)),
        }
    }
    Ok(Numbered { wagons, number })
}
