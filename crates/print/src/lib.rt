// An expression printed back as text (02, [1]).
// The output and the place in it go one by one, as `writing::put` takes them: a struct over both would be lent to each call all the same, and each
// clause would speak of its two fields.
#![tactic(auto)]

ghost use Rattle.std.specs.Prelude.{◌≡◌, length};
ghost use Rattle.answer.specs.Answers.{Decides, Leaves};
ghost use Rattle.policy.specs.Seen.{SeenOnce, OfEach};
ghost use Rattle.print.specs.Print.{decimal as Print·decimal, range_text, print_conditions, print_grants, print_makes};
ghost use Rattle.writing.specs.Writing.{WrittenAt, RoomFor};
ghost use Rattle.print.specs.Writing.{bracketed, needs_pair, sign_of, TermAhead, PrintsTerm, Ahead, PrintsFront, Judges};

use answer::Answer;
use expression::{AND, Kind, ONE, OR};
use order::Wrong;
use policy::{Examined, State};
use writing::put;

// The room that a print needs, however short it is.
const ROOM: usize = 512;

// How far a print came: how many bytes of the expression it used, and the place after it in the output.
#[derive(Clone, Copy)]
struct Printing {
    used: usize,
    to: usize,
}

// A number in decimal, with no leading zero. (By itself: the kit's stands in its crate io, which the C library of the gate does without.)
fn decimal(out: &mut [u8], at: usize, n: u8) -> usize
    requires { RoomFor out.old at (Print·decimal n) }
    ensures { WrittenAt out.old at (Print·decimal n) out.new result }
{
    if n < 10 {
        return put(out, at, b'0' + n);
    }
    if n < 100 {
        let p = put(out, at, b'0' + n / 10);
        return put(out, p, b'0' + n % 10);
    }
    let p = put(out, at, b'0' + n / 100);
    let q = put(out, p, b'0' + n / 10 % 10);
    put(out, q, b'0' + n % 10)
}

// A range, s[i..j].
fn print_range(out: &mut [u8], at: usize, s: u8, i: u8, j: u8) -> usize
    requires { RoomFor out.old at (range_text s i j) }
    ensures { WrittenAt out.old at (range_text s i j) out.new result }
{
    let a = decimal(out, at, s);
    let b = put(out, a, b'[');
    let c = decimal(out, b, i);
    let d = put(out, c, b'.');
    let e = put(out, d, b'.');
    let f = decimal(out, e, j);
    put(out, f, b']')
}

// The term at the front.
fn print_term(rest: &[u8], out: &mut [u8], at: usize) -> Printing
    requires { TermAhead rest.now out.old at }
    ensures { PrintsTerm rest.now out.old at out.new result }
{
    let s = rest[1];
    if rest[0] == ONE {
        return Printing {
            used: 2,
            to: decimal(out, at, s),
        };
    }
    let i = rest[2];
    let j = rest[3];
    Printing {
        used: 4,
        to: print_range(out, at, s, i, j),
    }
}

// x at the place `at`, where a pair is to stand.
fn bracket(out: &mut [u8], at: usize, pair: bool, x: u8) -> usize
    requires { RoomFor out.old at (bracketed pair x) }
    ensures { WrittenAt out.old at (bracketed pair x) out.new result }
{
    if pair {
        return put(out, at, x);
    }
    at
}

// Whether an operand with this first byte needs a pair: with the same operator where it stands right; else where it is OR under AND.
fn needs_pair(under: u8, right: bool, code: u8) -> bool
    ensures { result ≡ needs_pair under right code }
{
    if code == under {
        return right;
    }
    if under == AND {
        return code == OR;
    }
    false
}

// The sign of an operator.
fn sign(code: u8) -> u8
    ensures { result ≡ sign_of code }
{
    if code == AND {
        return b'&';
    }
    b'|'
}

// The expression at the front, in a pair where one is to stand: a call per operand, over the remaining bytes.
fn print_front(rest: &[u8], pair: bool, out: &mut [u8], at: usize) -> Printing
    requires { Ahead rest.now pair out.old at }
    ensures { PrintsFront rest.now pair out.old at out.new result }
{
    let code = rest[0];
    if code < AND {
        return print_term(rest, out, at);
    }
    let from = bracket(out, at, pair, b'(');
    let left_pair = needs_pair(code, false, rest[1]);
    let left = print_front(&rest[1..], left_pair, out, from);
    let mid = 1 + left.used;
    let joined = put(out, left.to, sign(code));
    let right_pair = needs_pair(code, true, rest[mid]);
    let right = print_front(&rest[mid..], right_pair, out, joined);
    let to = bracket(out, right.to, pair, b')');
    Printing {
        used: mid + right.used,
        to,
    }
}

// 17, 6 as in a request for its first expression, judged as a protection, 20: whether a print may be made, of the state that was seen so.
fn judge(seen: &Examined, x: &[u8], room: usize) -> Result<(), Answer>
    ensures { OfEach seen.now (λ s. Judges (print_conditions s x.now room) result) }
{
    let Some(grown) = &seen.grown else {
        return Err(Answer::of(answer::ILL_FORMED));
    };
    if let Err(Wrong(k)) = order::check(x, Kind::Protection, grown.size()) {
        return Err(Answer::at(answer::EXPRESSION_WRONG, k));
    }
    if room < ROOM {
        return Err(Answer::of(answer::BUFFER_SHORT));
    }
    Ok(())
}

// A print on the state that was seen so.
pub fn print_seen(seen: &Examined, x: &[u8], out: &mut [u8]) -> Answer
    requires { SeenOnce seen.now }
    ensures of_each { OfEach seen.now (λ s. Decides (print_conditions s x.now (length out.old)) (print_grants x.now) result) }
    ensures leaves { Leaves result (print_makes x.now out.old) out.old out.new }
{
    if let Err(refusal) = judge(seen, x, out.len()) {
        return refusal;
    }
    if x.is_empty() {
        return Answer::of(answer::DONE);
    }
    let printed = print_front(x, false, out, 0);
    Answer::at(answer::DONE, printed.to)
}

// The print of an expression at the front of out, and its length; or what is wrong with it.
pub fn print(s: &State, x: &[u8], out: &mut [u8]) -> Answer
    ensures decides { Decides (print_conditions s.now x.now (length out.old)) (print_grants x.now) result }
    ensures leaves { Leaves result (print_makes x.now out.old) out.old out.new }
{
    let seen = s.examine(0, 0);
    print_seen(&seen, x, out)
}
