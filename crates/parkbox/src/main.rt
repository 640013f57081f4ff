// A box that lives as long as its input: records from standard input; per record a line with the number, the place and the bytes given out. `run` and `main`
// read and write; all else stands in the functions before them, over slices.
#![tactic(auto)]

ghost use Rattle.std.specs.Prelude.{◌≤◌, length};
ghost use Rattle.parkbox.specs.Windows.{line_lent, ParkedIs};
ghost use Rattle.parkbox.specs.Inner.{SizeIs, LastTold};

use door::BoxRecord;
use script::WINDOW;
use std::env::{Env, FillError};
use std::io;
use std::io::{Read, Write};

// The most bytes that a record has: a code, two bytes of length, and as many as they can say.
const LONGEST: usize = 65538;

// The room that is lent for what a call gives out.
const GIVEN: usize = 512;

// The most bytes of a line: 20 digits twice, a space, three for each byte that is given out, and the line end.
const LINE: usize = 42 + 3 * GIVEN;

// How far a window was served: how many bytes were printed, and, where the run goes on, how many bytes were used.
#[derive(Clone, Copy, PartialEq, Eq, Debug)]
struct Parked {
    printed: usize,
    used: Option<usize>,
}

// How many bytes the record at the front has, where one stands there.
fn next_size(rest: &[u8]) -> Option<usize>
    ensures { SizeIs rest.now result }
{
    Some(records::read_record(rest)?.end)
}

// What is printed where no record stands: `cut`, where bytes are left.
fn tell_last(left: bool, out: &mut [u8]) -> usize
    requires { line_lent ≤ length out.old }
    ensures { LastTold left out.old out.new result }
{
    if !left {
        return 0;
    }
    out[..4].copy_from_slice(b"cut\n");
    4
}

// The records at the front of a window, one after another, each on the box that the one before it left, while the next one is decided and its line has
// room.
fn serve_window(b: &mut BoxRecord, window: &[u8], ends: bool, out: &mut [u8]) -> Parked
    ensures { ParkedIs b.old window.now ends out.old out.new b.new result }
{
    let mut rest = window;
    let mut n = 0;
    while script::may_play(LONGEST, LINE, ends, rest.len(), out.len() - n) {
        let Some(size) = next_size(rest) else {
            n += tell_last(!rest.is_empty(), &mut out[n..]);
            return Parked {
                printed: n,
                used: None,
            };
        };
        let mut given = [0u8; GIVEN];
        let served = door::serve(b, &rest[..size], &mut given);
        n += lines::print(served.answer, &given, served.given, &mut out[n..]);
        rest = &rest[size..];
    }
    Parked {
        printed: n,
        used: Some(window.len() - rest.len()),
    }
}

// One window after another. Nothing says that the input ends, so the loop has a bound that no run comes to. replay's loop is over another state and serves
// by another function: one loop for both would be given five functions of a state.
fn run<R: Read, W: Write>(input: &mut R, output: &mut W) -> io::Result<()> {
    let mut window = [0u8; WINDOW];
    let mut out = [0u8; WINDOW];
    let mut b = door::fresh_box();
    let mut used = 0;
    let mut n = 0;
    let mut ends = false;
    for _ in 0..u64::MAX {
        let held = script::to_front(&mut window, used, n);
        n = lines::refill(input, &mut window, held, ends)?;
        ends = n < WINDOW;
        let parked = serve_window(&mut b, &window[..n], ends, &mut out);
        output.write_all(&out[..parked.printed])?;
        let Some(further) = parked.used else {
            break;
        };
        used = further;
    }
    Ok(())
}

fn main(rt: HostRuntime) -> io::Result<()> {
    let argument = rt.arg(1, &mut [0u8; 1]);
    if !matches!(argument, Err(FillError::NotPresent)) {
        return eprintln!(rt; "usage: parkbox < records");
    }
    run(&mut rt.stdin(), &mut rt.stdout())
}
