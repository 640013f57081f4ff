// A replay input, record by record, to lines of output (01, "The replay program").
#![tactic(auto)]

ghost use Rattle.std.specs.Prelude.{◌≡◌, min, None, Some};
ghost use Rattle.script.specs.Script.{Replays};
ghost use Rattle.script.specs.Playing.{PlayedIs};
ghost use Rattle.script.specs.Windows.{at_front, WindowIs, Fronted};
ghost use Rattle.script.specs.Inner.{ExpressionIs, TwoAre, Puts, PutsLine, ToldIs, PlayedOn, FrontIs, MayPlay};

use answer::Answer;
use gate::Effect;
use policy::State;

// The codes of the records: those of the requests, and one for a bypass. (Bytes of the published format, and no enum: any byte may stand there.)
pub use machine::{ASK, BEGIN, CHANGE, END};

pub const BYPASS: u8 = 5;

// The most bytes that a record has: a code and three numbers, and twice a length byte and 255 bytes.
const LONGEST_RECORD: usize = 516;

// The most bytes before the records: two that state a length, and an image of the largest.
const LONGEST_FRONT: usize = 65537;

// The room that a line takes.
const LINE: usize = lines::PRINTED;

// The bytes of a window that a program reads its input by: more than any that have to be there at once.
pub const WINDOW: usize = 131072;

// What came of the next record: the input has ended; no whole record stands there; or one does, and this is what its call gave back and the bytes
// after it. (Three answers, of which the input's end is no fault: no shape of an Option or a Result.)
#[derive(Clone, Copy)]
pub enum Played<'a> {
    Ended,
    Cut,
    Called(Effect, &'a [u8]),
}

// The front of an input: its image, as far as it is there, and the records after it, where it is all there.
#[derive(Clone, Copy)]
struct Front<'a> {
    image: &'a [u8],
    records: Option<&'a [u8]>,
}

// How far a replay came: the state, once its image was loaded; of its last window, how many bytes were used, how many were printed, and whether the
// run goes on.
#[derive(Clone, Copy)]
pub struct Windowed {
    pub state: Option<State>,
    pub used: usize,
    pub n: usize,
    pub more: bool,
}

// An expression, a length byte and so many bytes, and what comes after it.
fn expression_at(bytes: &[u8]) -> Option<(&[u8], &[u8])>
    ensures { ExpressionIs bytes.now result }
{
    let (long, rest) = bytes.split_first()?;
    rest.split_at_checked(usize::from(*long))
}

// The two expressions of a record 04 or 05, and what comes after it.
fn two_expressions(bytes: &[u8]) -> Option<(&[u8], &[u8], &[u8])>
    ensures { TwoAre bytes.now result }
{
    let (x, rest) = expression_at(bytes)?;
    let (y, left) = expression_at(rest)?;
    Some((x, y, left))
}

// The next record of the input, run on the state.
pub fn play<'a>(s: &State, bytes: &'a [u8]) -> Played<'a>
    ensures { PlayedIs s.now bytes.now result }
{
    match bytes {
        [] => Played::Ended,
        [BEGIN, slot, role, left @ ..] => Played::Called(gate::begin(s, *slot, *role), left),
        [END, slot, left @ ..] => Played::Called(gate::end(s, *slot), left),
        [ASK, slot, file, mode, left @ ..] => {
            Played::Called(gate::ask(s, *slot, *file, *mode), left)
        }
        [CHANGE, slot, file, mode, rest @ ..] => match two_expressions(rest) {
            Some((t1, t2, left)) => {
                Played::Called(gate::change(s, *slot, *file, *mode, t1, t2), left)
            }
            None => Played::Cut,
        },
        [BYPASS, slot, file, mode, rest @ ..] => match two_expressions(rest) {
            Some((e, g, left)) => {
                Played::Called(gate::bypass(s, *slot, *file, *mode, e, g), left)
            }
            None => Played::Cut,
        },
        _ => Played::Cut,
    }
}

// The bytes w after what the output holds, as far as they fit. One more than the room stands for all that does not fit. (The output and its count go as two:
// a struct would hold the output by reference, and each promise would have to say besides that it is still the same one.)
fn put(out: &mut [u8], n: &mut usize, w: &[u8])
    ensures { Puts w.now out.old n.old out.new n.new }
{
    let at = *n;
    if out.len() < at {
        return;
    }
    let room = out.len() - at;
    let fits = w.len().min(room);
    let end = at + fits;
    out[at..end].copy_from_slice(&w[..fits]);
    *n = if room < w.len() { end + 1 } else { end };
}

// The line of an answer after what the output holds.
fn put_line(out: &mut [u8], n: &mut usize, a: Answer)
    ensures { PutsLine a out.old n.old out.new n.new }
{
    let mut line = [0u8; LINE];
    let long = lines::print(a, b"", 0, &mut line);
    put(out, n, &line[..long]);
}

// Plays the next record on the state where it stands, and prints its answer's line, or `cut`: the bytes after it, or None where the run ends.
fn play_next<'a>(s: &mut State, bytes: &'a [u8], out: &mut [u8], n: &mut usize) -> Option<&'a [u8]>
    ensures { ToldIs s.old bytes.now out.old n.old s.new out.new n.new result }
{
    match play(s, bytes) {
        Played::Ended => None,
        Played::Cut => {
            put(out, n, b"cut\n");
            None
        }
        Played::Called(effect, left) => {
            put_line(out, n, effect.answer);
            machine::store(s, &effect);
            Some(left)
        }
    }
}

// The records, one after another, each on the state that the one before it left.
fn play_all(state: State, records: &[u8], out: &mut [u8], n: &mut usize)
    ensures { PlayedOn state records.now out.old n.old out.new n.new }
{
    let mut s = state;
    let mut rest = records;
    while let Some(left) = play_next(&mut s, rest, out, n) {
        rest = left;
    }
}

// The front of an input, of which the first two bytes say how long the image is. Under two bytes there is none.
fn front_of(input: &[u8]) -> Option<Front<'_>>
    ensures { FrontIs input.now result }
{
    let [low, high, rest @ ..] = input else {
        return None;
    };
    match rest.split_at_checked(fields::low_first(*low, *high)) {
        Some((image, records)) => Some(Front {
            image,
            records: Some(records),
        }),
        None => Some(Front {
            image: rest,
            records: None,
        }),
    }
}

// A whole replay input, from the fresh state, into an output: how much is printed, or one more than the room where it does not fit.
pub fn run(input: &[u8], out: &mut [u8]) -> usize
    ensures { Replays input.now out.old out.new result }
{
    let mut n = 0;
    let Some(front) = front_of(input) else {
        put(out, &mut n, b"cut\n");
        return n;
    };
    let loaded = image::load(State::fresh(), front.image);
    put_line(out, &mut n, loaded.answer);
    if let Some(records) = front.records {
        play_all(loaded.state, records, out, &mut n);
    }
    n
}

// Whether what comes next can be played: so many bytes are left, or all that there are, and the output has the room that a line takes.
pub fn may_play(enough: usize, line: usize, ends: bool, left: usize, room: usize) -> bool
    ensures { MayPlay enough line ends left room result }
{
    line <= room && (ends || enough <= left)
}

// The front of the input: the image is loaded, as far as it is there. Under two bytes of length print `cut`.
fn play_front(window: &[u8], ends: bool, out: &mut [u8]) -> Windowed
    ensures { WindowIs None window.now ends out.old out.new result }
{
    if !may_play(LONGEST_FRONT, LINE, ends, window.len(), out.len()) {
        return at_front();
    }
    let mut n = 0;
    let Some(front) = front_of(window) else {
        put(out, &mut n, b"cut\n");
        return Windowed {
            state: None,
            used: 0,
            n,
            more: false,
        };
    };
    let loaded = image::load(State::fresh(), front.image);
    put_line(out, &mut n, loaded.answer);
    Windowed {
        state: Some(loaded.state),
        used: 2 + front.image.len(),
        n,
        more: front.records.is_some(),
    }
}

// The records at the front of a window, one after another, while the next one is decided and its line has room. (A loop beside play_all's, which plays to
// the end whatever room there is.)
fn play_records(state: State, window: &[u8], ends: bool, out: &mut [u8]) -> Windowed
    ensures { WindowIs (Some state) window.now ends out.old out.new result }
{
    let mut s = state;
    let mut rest = window;
    let mut n = 0;
    while may_play(LONGEST_RECORD, LINE, ends, rest.len(), out.len() - n) {
        let Some(left) = play_next(&mut s, rest, out, &mut n) else {
            return Windowed {
                state: Some(s),
                used: window.len() - rest.len(),
                n,
                more: false,
            };
        };
        rest = left;
    }
    Windowed {
        state: Some(s),
        used: window.len() - rest.len(),
        n,
        more: true,
    }
}

// A replay before its first window.
pub fn at_front() -> Windowed
    ensures { result ≡ at_front }
{
    Windowed {
        state: None,
        used: 0,
        n: 0,
        more: true,
    }
}

// The next window of the input, which starts where the last one was used up to: what it prints, and how far the replay came.
pub fn play_window(w: Windowed, window: &[u8], ends: bool, out: &mut [u8]) -> Windowed
    ensures { WindowIs w.state window.now ends out.old out.new result }
{
    match w.state {
        Some(state) => play_records(state, window, ends, out),
        None => play_front(window, ends, out),
    }
}

// The bytes of a window from `at` to n, as far as they are there, go to its front: how many they are.
pub fn to_front(window: &mut [u8], at: usize, n: usize) -> usize
    ensures { Fronted window.old at n window.new result }
{
    let end = n.min(window.len());
    let from = at.min(end);
    window.copy_within(from..end, 0);
    end - from
}
