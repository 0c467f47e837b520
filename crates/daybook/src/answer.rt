// The answer of one line.
ghost use Rattle.std.specs.Prelude.{◌≡◌, Some, OnErr};
ghost use Rattle.siding.specs.Stands.{state_of};
ghost use Rattle.daybook.specs.Line.{line_of};
ghost use Rattle.daybook.specs.Answer.{CallAnswered, StepAnswered, Answered, done_shown};

use crate::line::read_line;
use motion::calls::{Act, Call};
use motion::moves::Move;
use refusal::Refusal;
use siding::Siding;
use std::fmt;

// What was done, and the figure after it: a call, a step with the move that it made, or a step where none was due.
#[derive(Clone, Copy, PartialEq, Eq, Debug)]
pub enum Answer {
    Done { figure: u32 },
    Moved { made: Move, figure: u32 },
    Rest { figure: u32 },
}

impl fmt::Display for Answer {
    ghost output = { λ x. Some (done_shown x) };

    fn fmt<W: fmt::Write>(&self, f: &mut fmt::Formatter<W>) -> fmt::Result {
        match *self {
            Answer::Done { figure } => write!(f, "ok {figure}"),
            Answer::Moved { made, figure } => write!(f, "{} {} {figure}", made.from, made.to),
            Answer::Rest { figure } => write!(f, "- {figure}"),
        }
    }
}

// Does what a line says, and answers; where it is refused, the siding stays as it was.
pub fn answer_to(siding: &mut Siding, line: &[u8]) -> Result<Answer, Refusal>
    ensures answer { Answered (line_of line.now) (state_of siding.old) (state_of siding.new) result }
    ensures kept { OnErr result (siding.new ≡ siding.old) }
{
    match read_line(line).ok_or(Refusal::BadLine)? {
        Act::Call(call) => answer_to_call(siding, call),
        Act::Step => answer_to_step(siding),
    }
}

fn answer_to_call(siding: &mut Siding, call: Call) -> Result<Answer, Refusal>
    ensures answer { CallAnswered call (state_of siding.old) (state_of siding.new) result }
    ensures kept { OnErr result (siding.new ≡ siding.old) }
{
    siding.make(call)?;
    let figure = siding.figure();
    Ok(Answer::Done { figure })
}

fn answer_to_step(siding: &mut Siding) -> Result<Answer, Refusal>
    ensures answer { StepAnswered (state_of siding.old) (state_of siding.new) result }
    ensures kept { OnErr result (siding.new ≡ siding.old) }
{
    let stepped = siding.step()?;
    let figure = siding.figure();
    Ok(match stepped {
        Some(made) => Answer::Moved { made, figure },
        None => Answer::Rest { figure },
    })
}
