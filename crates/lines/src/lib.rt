// How an answer is printed as a line, what is kept of a line of input, and how a program's input is read.
#![tactic(auto)]

mod begun;
mod feed;

ghost use Rattle.std.specs.Prelude.{◌≡◌, ◌∷◌, [], ◌≤◌, ◌<◌, ◌+◌, ◌*◌, ◌/◌, ◌%◌, ◌==◌, length, take, position};
ghost use Rattle.io.specs.Digits.{hex_digit_ascii as Digits·glyph};
ghost use Rattle.lines.specs.Lines.{hexes as Lines·hexes, Fills, Collected};
ghost use Rattle.writing.specs.Writing.{WrittenAt};
ghost use Rattle.lines.specs.Writing.{DecimalAt, Keeps};

use answer::Answer;
pub use begun::{Begun, KEPT};
pub use feed::refill;
use writing::put;

// The most bytes of a line with up to 48 bytes given: 20 digits twice, a space, three for each byte, and the line end.
pub const PRINTED: usize = 186;

// n in decimal. The digits are io's: what `write!` puts into a slice, no contract says, and `Fills` says it of `print`.
fn decimal(out: &mut [u8], at: usize, n: u64) -> usize
    requires { at + 20 ≤ length out.old }
    ensures { DecimalAt out.old at n out.new result }
{
    let mut d = [0u8; 20];
    let k = io::decimal(n, &mut d);
    let end = at + k;
    out[at..end].copy_from_slice(&d[..k]);
    end
}

// A hex digit in lower case. `io::hex` writes into a buffer of its own, to be copied from, and is no plainer.
fn glyph(d: u8) -> u8
    requires { d < 16 }
    ensures { result ≡ Digits·glyph d }
{
    if d < 10 { 48 + d } else { 87 + d }
}

// A space and the two hex digits of x.
fn hex(out: &mut [u8], at: usize, x: u8) -> usize
    requires { at + 3 ≤ length out.old }
    ensures { WrittenAt out.old at (32 ∷ Digits·glyph (x / 16) ∷ Digits·glyph (x % 16) ∷ []) out.new result }
{
    let p = put(out, at, b' ');
    let q = put(out, p, glyph(x / 16));
    put(out, q, glyph(x % 16))
}

// The bytes of b in hex.
fn hexes(out: &mut [u8], at: usize, b: &[u8]) -> usize
    requires { at + 3 * length b.now ≤ length out.old }
    ensures { WrittenAt out.old at (Lines·hexes b.now) out.new result }
{
    let mut p = at;
    for x in b {
        p = hex(out, p, *x);
    }
    p
}

// The line of an answer, with the first n bytes of those given: all of them where n is more. Callers have n from an answer: it is bounded here, once.
pub fn print(a: Answer, given: &[u8], n: usize, out: &mut [u8]) -> usize
    requires { 42 + 3 * length given.now ≤ length out.old }
    ensures { Fills a (take n given.now) out.old out.new result }
{
    let i = decimal(out, 0, a.number as u64);
    let j = put(out, i, b' ');
    let k = decimal(out, j, a.place as u64);
    let shown = &given[..n.min(given.len())];
    let l = hexes(out, k, shown);
    put(out, l, b'\n')
}

// Where the line ends, if it does.
fn line_end(input: &[u8]) -> Option<usize>
    ensures { result ≡ position (λ x. x == 10) input.now }
{
    input.iter().position(|x| *x == b'\n')
}

impl Begun {
    // No line was begun.
    pub const NONE: Begun = Begun {
        bytes: [0u8; KEPT],
        n: 0,
    };

    // What is kept.
    pub fn text(&self) -> &[u8]
        ensures { result.now ≡ take self.now.n self.now.bytes }
    {
        &self.bytes[..self.n]
    }

    // The next line begins.
    pub fn clear(&mut self)
        ensures begins { self.new.n ≡ 0 }
        ensures rest { self.new.bytes ≡ self.old.bytes }
    {
        self.n = 0;
    }

    // A part of the line, while there is room.
    fn keep(&mut self, part: &[u8])
        ensures { Keeps self.old part.now self.new }
    {
        let more = part.len().min(KEPT - self.n);
        let end = self.n + more;
        self.bytes[self.n..end].copy_from_slice(&part[..more]);
        self.n = end;
    }

    // The input up to its next line end, or all of it, is added to the line; the place behind the line end, where there is one.
    pub fn collect(&mut self, input: &[u8]) -> Option<usize>
        ensures { Collected input.now self.old result self.new }
    {
        match line_end(input) {
            Some(end) => {
                self.keep(&input[..end]);
                Some(end + 1)
            }
            None => {
                self.keep(input);
                None
            }
        }
    }
}
