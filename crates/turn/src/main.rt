// Each line of standard input is a text: its answer is printed, and the bytes that it makes. `run` and `main` read and write; all else stands in the
// functions before them, over slices.
#![tactic(auto)]

ghost use Rattle.std.specs.Prelude.{◌≡◌, ◌≤◌, ◌<◌, length};
ghost use Rattle.turn.specs.Printed.{PrintsAnswer, most_printed, AnswersFront, AnswersPiece, AnswersLast};

use lines::Begun;
use std::env::{Env, FillError};
use std::io;
use std::io::{Read, Write};

// The most bytes of a piece of the input, and of what is written at once.
const PIECE: usize = 65536;

// How many bytes of a piece of the input were answered, and how many were printed.
#[derive(Clone, Copy)]
struct Answered {
    used: usize,
    printed: usize,
}

// The line that is printed for what is kept of a line.
fn turned(line: &Begun, out: &mut [u8]) -> usize
    requires { most_printed ≤ length out.old }
    ensures { PrintsAnswer line.now out.old out.new result }
{
    let mut bytes = [0u8; 48];
    let a = text::turn(line.text(), &mut bytes);
    lines::print(a, &bytes, a.given(), out)
}

// The piece up to its next line end, whose line is printed, or all of it, which is kept.
fn answer_line(piece: &[u8], begun: &mut Begun, out: &mut [u8]) -> Answered
    requires { (0 < length piece.now) × (most_printed ≤ length out.old) }
    ensures { AnswersFront piece.now begun.old out.old result begun.new out.new × (0 < result.used) }
{
    match begun.collect(piece) {
        Some(used) => {
            let printed = turned(begun, out);
            begun.clear();
            Answered { used, printed }
        }
        None => Answered {
            used: piece.len(),
            printed: 0,
        },
    }
}

// The lines that end in a piece of the input, while there is room for one more. Each turn goes on where the line before it ended, which no index counts.
fn answer_piece(piece: &[u8], begun: &mut Begun, out: &mut [u8]) -> Answered
    ensures { AnswersPiece piece.now begun.old out.old result begun.new out.new }
{
    let mut used = 0;
    let mut printed = 0;
    while used < piece.len() && lines::PRINTED <= out.len() - printed {
        let next = answer_line(&piece[used..], begun, &mut out[printed..]);
        used += next.used;
        printed += next.printed;
    }
    Answered { used, printed }
}

// The last line, where the input ends without a line end.
fn answer_last(line: &Begun, out: &mut [u8]) -> usize
    requires { most_printed ≤ length out.old }
    ensures { AnswersLast line.now out.old out.new result }
{
    if line.n == 0 {
        return 0;
    }
    turned(line, out)
}

// Reads, answers and writes, piece by piece, to the end of the input. Nothing says that the input ends, so the loop has a bound that no run comes to.
fn run<R: Read, W: Write>(input: &mut R, output: &mut W) -> io::Result<()> {
    let mut buf = [0u8; PIECE];
    let mut out = [0u8; PIECE];
    let mut begun = Begun::NONE;
    let mut left = 0..0;
    for _ in 0..u64::MAX {
        if left.is_empty() {
            left = 0..input.read(&mut buf)?;
        }
        if left.is_empty() {
            let printed = answer_last(&begun, &mut out);
            return output.write_all(&out[..printed]);
        }
        let answered = answer_piece(&buf[left.start..left.end], &mut begun, &mut out);
        left.start += answered.used;
        output.write_all(&out[..answered.printed])?;
    }
    Ok(())
}

fn main(rt: HostRuntime) -> io::Result<()> {
    let argument = rt.arg(1, &mut [0u8; 1]);
    if !matches!(argument, Err(FillError::NotPresent)) {
        return eprintln!(rt; "usage: turn < TEXTS");
    }
    run(&mut rt.stdin(), &mut rt.stdout())
}
