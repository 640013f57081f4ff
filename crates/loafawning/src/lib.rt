// The gate for programs in other languages: whole inputs and texts, under plain names. (Calls on a box that is kept: crate gatebox.)
#![tactic(auto)]

ghost use Rattle.script.specs.Script.{Replays};
ghost use Rattle.loafawning.specs.Exported.{Turns};

// A whole replay (01, "The replay program"): what the input prints, at the front of out. Its length, or one more than the room where it does not fit.
#[unsafe(no_mangle)]
pub extern "C" fn gate_replay(input: &[u8], out: &mut [u8]) -> usize
    ensures { Replays input.now out.old out.new result }
{
    script::run(input, out)
}

// The text of an expression to its bytes at the front of out (01, "In text"). The answer's number, and 256 times its place.
#[unsafe(no_mangle)]
pub extern "C" fn gate_text(text: &[u8], out: &mut [u8]) -> u32
    ensures { Turns text.now out.old out.new result }
{
    let answer = text::turn(text, out);
    answer.packed()
}
