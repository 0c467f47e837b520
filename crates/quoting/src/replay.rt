// A siding is drawn up and worked on, and says where it stands and what it is quoted: the call that carries the whole promise.
ghost use Rattle.siding.specs.Sheet.{drawn};
ghost use Rattle.siding.specs.Stands.{state_of};
ghost use Rattle.planning.specs.Promise.{Run};
ghost use Rattle.quoting.specs.Promise.{Answered};

use crate::account::Account;
use crate::quote::quote;
use motion::calls::Act;
use refusal::Refusal;
use siding::Siding;
use tariff::Tariff;

// Draws the siding up from the sheet, does the acts one after another, and answers what the siding then says.
pub fn replay<F: Tariff>(
    siding: &mut Siding,
    sheet: &[u8],
    acts: &[Act],
    tariff: &F,
) -> Result<Account<F::Sum>, Refusal>
    ensures run { Run (drawn sheet.now) acts.now siding.old siding.new }
    ensures answer { Answered (F.Tariff.rule tariff.now) (drawn sheet.now) (state_of siding.new) result }
{
    let page = planning::replay::replay(siding, sheet, acts)?;
    let quote = quote(siding, tariff);
    Ok(Account { page, quote })
}
