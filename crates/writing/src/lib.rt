// Bytes written into an output, one after another.
#![tactic(auto)]

ghost use Rattle.std.specs.Prelude.{◌<◌, [], ◌∷◌, length};
ghost use Rattle.writing.specs.Writing.{WrittenAt};

// x at the place `at`; the place after it. The two go side by side, as `WrittenAt` has them: a struct of both would hold the loan, and is no plainer.
pub fn put(out: &mut [u8], at: usize, x: u8) -> usize
    requires { at < length out.old }
    ensures { WrittenAt out.old at (x ∷ []) out.new result }
{
    out[at] = x;
    at + 1
}
