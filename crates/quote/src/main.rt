// Reads a siding's sheet and lines, as the program day does, and writes what the siding says after them, with its quote:
// in metres where the arguments give lengths, section 0 first, and else in moves.
#![tactic(auto)]

use daybook::acts::{Unread, read_acts};
use daybook::input::{MOST_BYTES, parted};
use motion::calls::Act;
use quoting::account::Account;
use quoting::replay::replay;
use refusal::Refusal;
use siding::Siding;
use std::alloc::Global;
use std::env;
use std::io::Read;
use tariff::amount::Amount;
use tariff::metres::Metres;
use tariff::move_count::MoveCount;

// Reads its input as day does: a function for both would have no contract to give.
fn main(rt: HostRuntime) -> anyhow::Result<()> {
    let mut input = Vec::new(rt.alloc());
    // One byte more than an input may have is enough to show that it has too many. `as`, since `From` leads from no
    // `usize` to a `u64`.
    rt.stdin()
        .take(MOST_BYTES as u64 + 1)
        .read_to_end(&mut input)?;
    let mut lengths: Vec<u16> = Vec::new(rt.alloc());
    for word in env::args(&rt)?.skip(1) {
        lengths.push(word.parse::<u16>()?)?;
    }
    match said(rt.alloc(), input.as_slice(), lengths.as_slice()) {
        Ok(account) => println!(rt; "{account}")?,
        Err(Unread::Refused(refusal)) => println!(rt; "no {refusal}")?,
        Err(Unread::OutOfMemory(e)) => return Err(e.into()),
    }
    Ok(())
}

// What the siding of an input says after its lines; all of them must say an act.
fn said(heap: Global, input: &[u8], lengths: &[u16]) -> Result<Account<Amount>, Unread> {
    if input.len() > MOST_BYTES {
        return Err(Unread::Refused(Refusal::OutOfRoom));
    }
    let (sheet, lines) = parted(input);
    let acts = read_acts(heap, lines)?;
    Ok(quoted(sheet, acts.as_slice(), lengths)?)
}

// What the siding says after the acts, under the tariff that the lengths make.
fn quoted(sheet: &[u8], acts: &[Act], lengths: &[u16]) -> Result<Account<Amount>, Refusal> {
    let mut siding = Siding::bare();
    if lengths.is_empty() {
        return replay(&mut siding, sheet, acts, &MoveCount);
    }
    let mut metres = Metres::level();
    metres.fill(lengths)?;
    replay(&mut siding, sheet, acts, &metres)
}
