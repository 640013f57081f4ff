// Formats: specs/ has the notion, its laws, and what a reader of one tells; here are the readers that every format needs.
#![tactic(auto)]

ghost use Rattle.std.specs.Prelude.{◌≡◌, ◌<◌, length, drop};
ghost use Rattle.answer.specs.Numbers.{ends_early};
ghost use Rattle.fields.specs.Parts.{byte, word, low_first};
ghost use Rattle.fields.specs.Reading.{NumberRead, Ranged, Ends};

use answer::{Answer, DONE, ENDS_EARLY, LEFT_OVER};

// What is read from a place on: its value, and the place where the next begins.
#[derive(Clone, Copy, Debug, PartialEq, Eq)]
pub struct Read<T> {
    pub value: T,
    pub next: usize,
}

// What is refused: the number of the refusal, and the place that is at fault.
#[derive(Clone, Copy, Debug, PartialEq, Eq)]
pub struct Refused {
    pub number: u8,
    pub place: usize,
}

// A number of 16 bits, low byte first.
pub fn low_first(low: u8, high: u8) -> usize
    ensures { (result ≡ low_first low high) × (result < 65536) }
{
    usize::from(u16::from_le_bytes([low, high]))
}

// The bytes from a place on; past their end there are none.
fn onward(bytes: &[u8], at: usize) -> &[u8]
    ensures { result.now ≡ drop at bytes.now }
{
    bytes.get(at..).unwrap_or(&[])
}

// Where the bytes end too early.
fn early(bytes: &[u8]) -> Refused
    ensures { result ≡ record { number = ends_early; place = length bytes.now } }
{
    Refused {
        number: ENDS_EARLY,
        place: bytes.len(),
    }
}

// A number whose bytes begin at one place and end before the next: from `low` to `high`, or refused where they begin.
fn in_range(
    value: usize,
    at: usize,
    next: usize,
    low: usize,
    high: usize,
    number: u8,
) -> Result<Read<usize>, Refused>
    ensures { Ranged low high number value at next result }
{
    if value < low || high < value {
        return Err(Refused { number, place: at });
    }
    Ok(Read { value, next })
}

// One byte, from `low` to `high`. (Not one function over the width with `read_word`: given how to make the value, it would have a bound `Fn` over
// an array of the width, which the checker does not cover.)
pub fn read_byte(
    bytes: &[u8],
    from: Result<usize, Refused>,
    low: usize,
    high: usize,
    number: u8,
) -> Result<Read<usize>, Refused>
    ensures { NumberRead byte bytes.now from low high number result }
{
    let at = from?;
    let [byte, ..] = onward(bytes, at) else {
        return Err(early(bytes));
    };
    in_range(usize::from(*byte), at, at + 1, low, high, number)
}

// A number of 16 bits, from `low` to `high`, judged once both its bytes are there.
pub fn read_word(
    bytes: &[u8],
    from: Result<usize, Refused>,
    low: usize,
    high: usize,
    number: u8,
) -> Result<Read<usize>, Refused>
    ensures { NumberRead word bytes.now from low high number result }
{
    let at = from?;
    let [first, second, ..] = onward(bytes, at) else {
        return Err(early(bytes));
    };
    in_range(low_first(*first, *second), at, at + 2, low, high, number)
}

// The answer where nothing is to follow what was read.
pub fn answer_at_end(bytes: &[u8], met: Result<usize, Refused>) -> Answer
    ensures { Ends bytes.now met result }
{
    match met {
        Err(refused) => Answer::at(refused.number, refused.place),
        Ok(next) if next < bytes.len() => Answer::at(LEFT_OVER, next),
        Ok(_) => Answer::of(DONE),
    }
}
