// The bill: what the moves due come to, move by move.
ghost use Rattle.siding.specs.Stands.{state_of};
ghost use Rattle.lists.specs.Held.{SameSlice};
ghost use Rattle.lists.specs.Bill.{Billed, BillEndsInTheQuote};

use crate::filling::write_due;
use crate::list::List;
use crate::writer::running::Running;
use refusal::Refusal;
use siding::Siding;
use tariff::Tariff;

// Writes the sum after each of the moves due into the list, in place of what it holds, and answers how many they are.
pub fn bill<F: Tariff>(
    siding: &Siding,
    tariff: &F,
    list: &mut List<F::Sum>,
) -> Result<usize, Refusal>
    ensures billed { Billed (F.Tariff.rule tariff.now) (state_of siding.now) list.old list.new result }
    ensures ends { BillEndsInTheQuote (F.Tariff.rule tariff.now) (state_of siding.now) list.new result }
    ensures slice { SameSlice list.old list.new }
{
    let mut writer = Running {
        tariff,
        sum: tariff.nothing(),
    };
    write_due(siding, &mut writer, list)
}
