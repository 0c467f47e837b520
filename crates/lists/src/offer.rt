// The plan beside its quote.
ghost use Rattle.siding.specs.Stands.{state_of};
ghost use Rattle.lists.specs.Held.{SameSlice};
ghost use Rattle.lists.specs.Offers.{Offered};

use crate::list::List;
use crate::plan::plan;
use motion::moves::Move;
use quoting::quote::quote;
use refusal::Refusal;
use siding::Siding;
use tariff::Tariff;

// What a shunter can offer: how many moves there are in the list, and what they are charged.
#[derive(Clone, Copy)]
pub struct Offer<S> {
    pub moves: usize,
    pub quote: S,
}

// Writes the plan into the list, as `plan` does, and answers it with its quote under a tariff.
pub fn make_offer<F: Tariff>(
    siding: &Siding,
    tariff: &F,
    list: &mut List<Move>,
) -> Result<Offer<F::Sum>, Refusal>
    ensures offered { Offered (F.Tariff.rule tariff.now) (state_of siding.now) list.old list.new result }
    ensures slice { SameSlice list.old list.new }
{
    let moves = plan(siding, list)?;
    let quote = quote(siding, tariff)?;
    Ok(Offer { moves, quote })
}
