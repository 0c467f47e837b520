// The acts that lines say.
ghost use Rattle.std.specs.Prelude.{IfOk, IfErr};
ghost use Rattle.daybook.specs.Input.{cut};
ghost use Rattle.daybook.specs.Acts.{Say, WhyUnread};

use crate::input::LINE_END;
use crate::line::read_line;
use motion::calls::Act;
use refusal::Refusal;
use std::alloc::{AllocError, AllocFailed, Global};
use thiserror::Error;

// Why lines were not read: some line says no act, or there was no memory for the acts.
#[derive(Clone, Copy, PartialEq, Eq, Debug, Error)]
pub enum Unread {
    #[error("no {0}")]
    Refused(Refusal),
    #[error(transparent)]
    OutOfMemory(AllocError),
}

impl From<Refusal> for Unread {
    ghost use Rattle.std.specs.Prelude.{◌≡◌};
    ghost use Rattle.daybook.specs.declared.acts.Unread.TheVariants.{Refused};

    ghost from_gives = { λ refusal u. u ≡ Refused refusal };

    fn from(refusal: Refusal) -> Unread {
        Unread::Refused(refusal)
    }
}

impl<T: Drop> From<AllocFailed<T>> for Unread {
    ghost use Rattle.std.specs.Prelude.{◌≡◌, alloc_error};
    ghost use Rattle.daybook.specs.declared.acts.Unread.TheVariants.{OutOfMemory};

    ghost from_gives = { λ _ u. u ≡ OutOfMemory alloc_error };

    fn from(failed: AllocFailed<T>) -> Unread {
        Unread::OutOfMemory(failed.into())
    }
}

// The act of each line; a line that says none is a bad one.
pub fn read_acts(heap: Global, lines: &[u8]) -> Result<Vec<Act>, Unread>
    ensures acts { IfOk result (λ acts. Say (cut lines.now) acts.items) }
    ensures unread { IfErr result (WhyUnread (cut lines.now)) }
{
    let mut acts = Vec::new(heap);
    for line in lines.split_inclusive(|b| *b == LINE_END) {
        let act = read_line(line).ok_or(Refusal::BadLine)?;
        acts.push(act)?;
    }
    Ok(acts)
}
