// A day's whole answer.
ghost use Rattle.std.specs.Prelude.{IfOk, string_bytes, OnOk};
ghost use Rattle.daybook.specs.Input.{cut};
ghost use Rattle.siding.specs.Stands.{state_of};
ghost use Rattle.daybook.specs.Day.{OneMore, More, Day};

use crate::answer::answer_to;
use crate::input::{LINE_END, parted};
use crate::opening::open;
use siding::Siding;
use std::alloc::{AllocError, Global};

// The answer to an input: the opening and, if a siding was drawn up, the answer of each line.
pub fn day(heap: Global, input: &[u8]) -> Result<String, AllocError>
    ensures { IfOk result (λ text. Day input.now (string_bytes text)) }
{
    let mut siding = Siding::bare();
    match open(&mut siding, input) {
        Ok(drawn) => {
            let mut text = format!(in heap; "{drawn}\n")?;
            let (_, lines) = parted(input);
            answer_lines(&mut text, &mut siding, lines)?;
            Ok(text)
        }
        Err(refusal) => format!(in heap; "no {refusal}\n"),
    }
}

// Appends the answer of each line.
fn answer_lines(text: &mut String, siding: &mut Siding, lines: &[u8]) -> Result<(), AllocError>
    ensures { OnOk result (More (cut lines.now) (state_of siding.old) (string_bytes text.old) (string_bytes text.new)) }
{
    for line in lines.split_inclusive(|b| *b == LINE_END) {
        answer_line(text, siding, line)?;
    }
    Ok(())
}

// Appends the answer of one line; a refusal goes without its place here.
fn answer_line(text: &mut String, siding: &mut Siding, line: &[u8]) -> Result<(), AllocError>
    ensures { OnOk result (OneMore line.now (state_of siding.old) (state_of siding.new) (string_bytes text.old) (string_bytes text.new)) }
{
    match answer_to(siding, line) {
        Ok(answer) => writeln!(text, "{answer}"),
        Err(refusal) => {
            let number = refusal.number();
            writeln!(text, "no {number}")
        }
    }
}
