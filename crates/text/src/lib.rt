// Text turned into bytes (01, "In text").
#![tactic(auto)]

ghost use Rattle.std.specs.Prelude.{◌≡◌, length};
ghost use Rattle.answer.specs.Answers.{Decides, Leaves};
ghost use Rattle.text.specs.Turn.{text_conditions, text_grants, text_makes};

mod classes;
mod made;
mod reader;

use crate::reader::read;
use answer::Answer;
use expression::LONGEST;

// The most bytes that a text has.
const LONGEST_TEXT: usize = 512;

// The bytes of a text at the front of out, and how many they are; or what is wrong with it.
pub fn turn(text: &[u8], out: &mut [u8]) -> Answer
    ensures decides { Decides (text_conditions text.now (length out.old)) (text_grants text.now) result }
    ensures leaves { Leaves result (text_makes text.now out.old) out.old out.new }
{
    if out.len() < LONGEST {
        return Answer::of(answer::BUFFER_SHORT);
    }
    if LONGEST_TEXT < text.len() {
        return Answer::at(answer::TEXT_WRONG, LONGEST_TEXT);
    }
    let made = match read(text) {
        Ok(made) => made,
        Err(fault) => return Answer::at(answer::TEXT_WRONG, fault.at),
    };
    let Some(bytes) = made.bytes() else {
        return Answer::of(answer::TEXT_LONG);
    };
    out[..bytes.len()].copy_from_slice(bytes);
    Answer::at(answer::DONE, bytes.len())
}
