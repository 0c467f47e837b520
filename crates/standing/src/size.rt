// How many sections a standing may have.
ghost use Rattle.std.specs.Prelude.{◌≡◌, true, false, OnOk, IfErr};
ghost use Rattle.standing.specs.Number.{out_of_range};

use refusal::Refusal;

// The most sections of a standing.
const MOST_SECTIONS: usize = 64;

// Refuses a number of sections that no standing has.
pub(crate) fn test_size(n: usize) -> Result<(), Refusal>
    ensures in_range { OnOk result (out_of_range n ≡ false) }
    ensures refused { IfErr result (λ e. (out_of_range n ≡ true) × (e ≡ Refusal.SizeOutOfRange)) }
{
    if n == 0 || n > MOST_SECTIONS {
        return Err(Refusal::SizeOutOfRange);
    }
    Ok(())
}
