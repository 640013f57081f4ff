// The machine as one function: any request, by its code, on a state (01, "Requests").
#![tactic(auto)]

ghost use Rattle.std.specs.Prelude.{◌≡◌, ◌<◌};
ghost use Rattle.policy.specs.State.{most_files};
ghost use Rattle.policy.specs.Seen.{Seen, Of};
ghost use Rattle.gate.specs.Effects.{after, Tells};
ghost use Rattle.machine.specs.Machine.{Step};
ghost use Rattle.machine.specs.Served.{request_of};

use answer::Answer;
use gate::Effect;
use policy::{Examined, State};

// The codes of the requests. Any other is a bypass. (Numbers and no enum: `request_of` of specs/Served gives each number a request, and a
// record of a box or of a replay states it in a byte.)
pub const LOAD: u8 = 0;

pub const BEGIN: u8 = 1;

pub const END: u8 = 2;

pub const ASK: u8 = 3;

pub const CHANGE: u8 = 4;

// What a request other than load comes to on the state that was seen so, for its slot and the file that `a` names: the gate's function for its code.
pub fn effect_seen(seen: &Examined, code: u8, slot: u8, a: u8, b: u8, x: &[u8], y: &[u8]) -> Effect
    requires { (0 < code) × Seen slot a seen.now }
    ensures { Of slot a seen.now (λ s. Tells s (λ o. Step s (request_of code slot a b x.now y.now) o.answer o.state) result) }
{
    match code {
        BEGIN => gate::begin_seen(seen, slot, a),
        END => gate::end_seen(seen, slot),
        ASK => gate::ask_seen(seen, slot, a, b),
        CHANGE => gate::change_seen(seen, slot, a, b, x, y),
        _ => gate::bypass_seen(seen, slot, a, b, x, y),
    }
}

// What a request other than load comes to.
pub fn effect_of(s: &State, code: u8, slot: u8, a: u8, b: u8, x: &[u8], y: &[u8]) -> Effect
    requires { 0 < code }
    ensures { Tells s.now (λ o. Step s.now (request_of code slot a b x.now y.now) o.answer o.state) result }
{
    let seen = s.examine(usize::from(slot), usize::from(a));
    effect_seen(&seen, code, slot, a, b, x, y)
}

// Stores an effect: its slots and its file stand in the state.
pub fn store(s: &mut State, effect: &Effect)
    requires { effect.now.at < most_files }
    ensures { s.new ≡ after s.old effect.now }
{
    s.slots = effect.slots;
    s.files[effect.at] = effect.file;
}

// A request by its code, on the state where it stands: load by the image's function, any other by the gate's, whose effect is then stored.
pub fn serve(s: &mut State, code: u8, slot: u8, a: u8, b: u8, x: &[u8], y: &[u8]) -> Answer
    ensures { Step s.old (request_of code slot a b x.now y.now) result s.new }
{
    if code == LOAD {
        let loaded = image::load(*s, x);
        *s = loaded.state;
        return loaded.answer;
    }
    let effect = effect_of(s, code, slot, a, b, x, y);
    store(s, &effect);
    effect.answer
}
