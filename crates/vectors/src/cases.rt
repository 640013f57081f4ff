// The cases, line by line: a name, a colon, a call's word, and its bytes in hex. A line without a colon is its own name; one with
// an empty name makes a state and writes nothing; `#` begins a comment.
ghost use Rattle.std.specs.Prelude.{◌<◌};

use crate::output::{Told, write_line};
use crate::{calls, expressions, policies};
use answer::Answer;
use expression::Kind;
use order::Mutable;
use policy::State;
use std::io;
use std::io::Write;

// The most bytes that a call has.
const MOST: usize = 128;

#[derive(Clone, Copy)]
enum Call {
    // Load and the requests; the bytes of change and bypass are those of 01's records 04 and 05.
    Load,
    Begin,
    End,
    Ask,
    Change,
    Bypass,
    // On expressions.
    Check(Kind),
    SetOf,
    Meets(Mutable),
    // What is looked at: all requests, or a length of file 0.
    Five,
    Stored,
    Alter(Alteration),
}

// A state to begin with, or a part of it altered.
#[derive(Clone, Copy)]
enum Alteration {
    Fresh,
    Base,
    Role,
    File,
    Securons,
    Parent,
    Counts,
    Hold,
}

impl Call {
    // The call whose word begins with these three letters.
    fn parse(words: &[u8]) -> Option<Call> {
        let call = match words.get(..3)? {
            b"loa" => Call::Load,
            b"beg" => Call::Begin,
            b"end" => Call::End,
            b"ask" => Call::Ask,
            b"cha" => Call::Change,
            b"byp" => Call::Bypass,
            b"pri" => Call::Check(Kind::Privilege),
            b"pro" => Call::Check(Kind::Protection),
            b"SET" => Call::SetOf,
            b"T1 " => Call::Meets(Mutable::T1),
            b"T2 " => Call::Meets(Mutable::T2),
            b"fiv" => Call::Five,
            b"sto" => Call::Stored,
            b"fre" => Call::Alter(Alteration::Fresh),
            b"bas" => Call::Alter(Alteration::Base),
            b"rol" => Call::Alter(Alteration::Role),
            b"fil" => Call::Alter(Alteration::File),
            b"sec" => Call::Alter(Alteration::Securons),
            b"par" => Call::Alter(Alteration::Parent),
            b"cou" => Call::Alter(Alteration::Counts),
            b"hol" => Call::Alter(Alteration::Hold),
            _ => return None,
        };
        Some(call)
    }
}

// The value of a hex digit.
fn digit(x: u8) -> u8
    ensures { result < 16 }
{
    match x {
        b'0'..=b'9' => x - b'0',
        b'a'..=b'f' => x - b'a' + 10,
        _ => 0,
    }
}

// The bytes that stand after a call's word, each a space and two digits: as many as there is room for. (Fixed memory: no line can fail for want of more.)
fn arguments<'a>(words: &[u8], room: &'a mut [u8; MOST]) -> &'a [u8] {
    let space = words.iter().position(|x| *x == b' ');
    let bytes = &words[space.unwrap_or(words.len())..];
    for (arg, byte) in room.iter_mut().zip(bytes.chunks_exact(3)) {
        *arg = 16 * digit(byte[1]) + digit(byte[2]);
    }
    &room[..MOST.min(bytes.len() / 3)]
}

// Byte k of a call, 0 where there is none.
fn arg(args: &[u8], k: usize) -> u8 {
    args.get(k).copied().unwrap_or(0)
}

// The bytes of a call from a place on.
fn rest(args: &[u8], from: usize) -> &[u8] {
    args.get(from..).unwrap_or(args)
}

// The bytes whose number stands at a place.
fn counted(args: &[u8], at: usize) -> &[u8] {
    let part = match args.get(at..) {
        Some([count, tail @ ..]) => tail.get(..usize::from(*count)),
        _ => None,
    };
    part.unwrap_or(args)
}

// Another state, or another part of it.
fn alter(s: &mut State, alteration: Alteration, args: &[u8]) {
    let second = arg(args, 1);
    let third = arg(args, 2);
    let i = usize::from(arg(args, 0));
    let k = usize::from(second);
    match alteration {
        Alteration::Fresh => *s = State::fresh(),
        Alteration::Base => *s = policies::base(),
        Alteration::Role => policies::role(s, i, k, third, rest(args, 3)),
        Alteration::File => policies::file(s, i, k, third, rest(args, 3)),
        Alteration::Securons => s.tree.n = i,
        Alteration::Parent => policies::parent(s, i, second),
        Alteration::Counts => {
            s.nroles = i;
            s.nfiles = k;
        }
        Alteration::Hold => policies::hold(s, i, second),
    }
}

// A call on a state, which may alter it, and what it tells.
fn perform(s: &mut State, call: Call, args: &[u8]) -> Option<Told> {
    let first = arg(args, 0);
    let second = arg(args, 1);
    let third = arg(args, 2);
    let x = counted(args, 3);
    let y = counted(args, 4 + usize::from(arg(args, 3)));
    let told = match call {
        Call::Load => calls::load(s, args),
        Call::Begin => calls::store(gate::begin(s, first, second), s),
        Call::End => calls::store(gate::end(s, first), s),
        Call::Ask => Told::Answer(gate::ask(s, first, second, third).answer),
        Call::Change => calls::store(gate::change(s, first, second, third, x, y), s),
        Call::Bypass => calls::store(gate::bypass(s, first, second, third, x, y), s),
        Call::Check(kind) => expressions::check(kind, args),
        Call::SetOf => expressions::set_of(args)?,
        Call::Meets(part) => {
            let held = counted(args, 0);
            expressions::meets(part, held, rest(args, 1 + usize::from(first)))?
        }
        Call::Five => calls::five(s),
        Call::Stored => {
            let length = policies::stored_length(s, usize::from(first));
            Told::Answer(Answer::of(length))
        }
        Call::Alter(alteration) => {
            alter(s, alteration, args);
            return None;
        }
    };
    Some(told)
}

// A line: its name and its call. What a call answers that has no name is not written: it makes a state.
fn line<W: Write>(out: &mut W, s: &mut State, text: &[u8]) -> io::Result<()> {
    if text.starts_with(b"#") {
        return Ok(());
    }
    let (name, words) = match text.iter().position(|x| *x == b':') {
        Some(colon) => (&text[..colon], text.get(colon + 2..).unwrap_or(b"")),
        None => (text, text),
    };
    let Some(call) = Call::parse(words) else {
        return Ok(());
    };
    let mut room = [0u8; MOST];
    match perform(s, call, arguments(words, &mut room)) {
        None => Ok(()),
        Some(Told::Answer(_)) if name.is_empty() => Ok(()),
        Some(told) => write_line(out, name, &told),
    }
}

// Line by line, from the fresh state on.
pub(crate) fn run<W: Write>(out: &mut W, input: &[u8]) -> io::Result<()> {
    let mut s = State::fresh();
    for text in input.split(|x| *x == b'\n') {
        line(out, &mut s, text)?;
    }
    Ok(())
}
