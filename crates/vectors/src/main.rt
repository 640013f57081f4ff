// Cases by hand, run and compared: standard input has the calls, a line each, and what is written must be crates/vectors/stdout,
// which was made from the papers and not by this program.
#![tactic(auto)]

mod calls;
mod cases;
mod expressions;
mod images;
mod output;
mod policies;

use std::io;
use std::io::{BufWriter, Read, Write};

// The most bytes of the input that are read, and of the output that are written at once.
const MOST: usize = 65536;

fn main(rt: HostRuntime) -> io::Result<()> {
    let mut input = Vec::new(rt.alloc());
    rt.stdin().take(MOST as u64).read_to_end(&mut input)?;
    let mut out = BufWriter::with_capacity(rt.alloc(), MOST, rt.stdout())?;
    cases::run(&mut out, input.as_slice())?;
    images::run(&mut out)?;
    out.flush()
}
