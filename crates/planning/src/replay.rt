// A siding is drawn up and worked on, and says where it stands: the one call that carries the whole promise.
ghost use Rattle.std.specs.Prelude.{◌≡◌};
ghost use Rattle.motion.specs.Calls.{Makes, After};
ghost use Rattle.siding.specs.Sheet.{drawn};
ghost use Rattle.siding.specs.Stands.{state_of};
ghost use Rattle.planning.specs.Promise.{Run, accounted};

use crate::account::Account;
use motion::calls::Act;
use refusal::Refusal;
use siding::Siding;

// Draws the siding up from the sheet, does the acts one after another, and answers what the siding then says.
pub fn replay(siding: &mut Siding, sheet: &[u8], acts: &[Act]) -> Result<Account, Refusal>
    ensures run { Run (drawn sheet.now) acts.now siding.old siding.new }
    ensures answer { result ≡ accounted (drawn sheet.now) (state_of siding.new) }
{
    siding.draw_up(sheet)?;
    act_all(siding, acts);
    Ok(Account {
        figure: siding.figure(),
        head: siding.head(),
        moves: siding.moves(),
        away: siding.away(),
    })
}

// Does the acts one after another.
pub fn act_all(siding: &mut Siding, acts: &[Act])
    ensures { After acts.now (state_of siding.old) (state_of siding.new) }
{
    for each in acts {
        act_on(siding, *each);
    }
}

// Does one act; where it is refused nothing changes, and the run goes on.
fn act_on(siding: &mut Siding, act: Act)
    ensures { Makes act (state_of siding.old) (state_of siding.new) }
{
    match act {
        Act::Call(call) => {
            let _ = siding.make(call);
        }
        Act::Step => {
            let _ = siding.step();
        }
    }
}
