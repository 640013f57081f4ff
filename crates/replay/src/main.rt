// The replay program (01): an image and records from standard input; per call a line with the number and the place.
#![tactic(auto)]

use script::WINDOW;
use std::env::{Env, FillError};
use std::io;
use std::io::{Read, Write};

// One window after another. Nothing says that the input ends, so the loop has a bound that no run comes to. parkbox's loop is over another state and plays
// by another function: one loop for both would be given five functions of a state.
fn replay<R: Read, W: Write>(input: &mut R, output: &mut W) -> io::Result<()> {
    let mut window = [0u8; WINDOW];
    let mut out = [0u8; WINDOW];
    let mut w = script::at_front();
    let mut n = 0;
    let mut ends = false;
    for _ in 0..u64::MAX {
        if !w.more {
            break;
        }
        let held = script::to_front(&mut window, w.used, n);
        n = lines::refill(input, &mut window, held, ends)?;
        ends = n < WINDOW;
        w = script::play_window(w, &window[..n], ends, &mut out);
        output.write_all(&out[..w.n])?;
    }
    Ok(())
}

fn main(rt: HostRuntime) -> io::Result<()> {
    let argument = rt.arg(1, &mut [0u8; 1]);
    if !matches!(argument, Err(FillError::NotPresent)) {
        return eprintln!(rt; "usage: replay < input");
    }
    replay(&mut rt.stdin(), &mut rt.stdout())
}
