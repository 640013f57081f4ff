// How a program's input is read, a window after another.
ghost use Rattle.std.specs.Prelude.{◌≡◌, ◌≤◌, ◌<◌, false, length, take, drop, IfOk};
ghost use Rattle.std.specs.Io.KnownBytes.{Consumes, IsAtEnd};

use std::io;
use std::io::Read;

// More of the input after the n bytes that the window holds, until it is full, unless the input has ended; how many it holds then. A read gives as many
// bytes as it likes: the loop goes on by what came, which no iterator counts.
pub fn refill<R: Read>(input: &mut R, window: &mut [u8], n: usize, ends: bool) -> io::Result<usize>
    requires { n ≤ length window.old }
    ensures within { IfOk result (λ held. (n ≤ held) × (held ≤ length window.old)) }
    ensures kept { take n window.new ≡ take n window.old }
    ensures read { IfOk result (λ held. Consumes (R.remaining input.old) (R.remaining input.new) (drop n (take held window.new))) }
    ensures full { IfOk result (λ held. ends ≡ false → held < length window.new → IsAtEnd (R.remaining input.new)) }
{
    if ends {
        return Ok(n);
    }
    let mut held = n;
    while held < window.len() {
        let got = input.read(&mut window[held..])?;
        if got == 0 {
            break;
        }
        held += got;
    }
    Ok(held)
}
