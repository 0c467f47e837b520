// Reads a day's input, and writes its answer.
#![tactic(auto)]

use daybook::day::day;
use daybook::input::MOST_BYTES;
use std::io;
use std::io::{Read, Write};

fn main(rt: HostRuntime) -> io::Result<()> {
    let mut input = Vec::new(rt.alloc());
    // One byte more than an input may have is enough to show that it has too many. `as`, since `From` leads from no
    // `usize` to a `u64`.
    rt.stdin()
        .take(MOST_BYTES as u64 + 1)
        .read_to_end(&mut input)?;
    let text = day(rt.alloc(), &input)?;
    rt.stdout().write_all(text.as_bytes())
}
