// The gate: the requests begin, end, ask, change, bypass (01, "Requests", "Order").
// A slot, a file and a mode go one by one: a struct over them would hold `Seen` as a ghost field, whose fact may have one proof at most, and `Seen`
// has one for each state that is seen so.
#![tactic(auto)]

ghost use Rattle.std.specs.Prelude.{◌≡◌, IfOk, ◌<◌, ◌≤◌, length, set};
ghost use Rattle.expression.specs.Bytes.{longest};
ghost use Rattle.order.specs.Order.{fine};
ghost use Rattle.policy.specs.State.{slot_count, IsMode, part_number, file_place, put_pair, Free, By, with_hold, with_t1_t2, with_e_g};
ghost use Rattle.policy.specs.Seen.{Seen, SeenAt, Of, OfAll};
ghost use Rattle.gate.specs.Requests.{slot_conditions, session_conditions, row_conditions, store_conditions, begin_conditions};
ghost use Rattle.gate.specs.Requests.{end_conditions, ask_conditions, change_conditions, bypass_conditions, Begins, Ends, Asks, Changes, Bypasses};
ghost use Rattle.gate.specs.Effects.{effect_of, Tells};
ghost use Rattle.gate.specs.Parts.{Stage, Judges, ComesTo};

use answer::Answer;
use expression::Kind;
use policy::{Examined, File, Part, State};
use tree::Grown;

// What a request comes to: the answer, and all of the state that it may alter, as it is after the request: the slots, and a file with its
// number. For a caller whose state lives in a variable: it stores both there, and no state is copied.
#[derive(Clone, Copy)]
pub struct Effect {
    pub answer: Answer,
    pub slots: [u16; policy::SLOTS],
    pub at: usize,
    pub file: File,
}

// 17, 8: what every request begins with. Like each stage it gives back the tree with its levels, or the refusal.
fn known<'a>(seen: &'a Examined, slot: u8) -> Result<&'a Grown, Answer>
    ensures grown { IfOk result (λ g. (seen.now.grown ≡ Some g.now) × (slot < slot_count)) }
    ensures stage { OfAll slot seen.now (λ s. Stage (slot_conditions s slot) result) }
{
    let Some(grown) = &seen.grown else {
        return Err(Answer::of(answer::ILL_FORMED));
    };
    if policy::SLOTS <= slot as usize {
        return Err(Answer::of(answer::NO_SLOT));
    }
    Ok(grown)
}

// 17, 8, 9: what every request by a session begins with.
fn in_session<'a>(seen: &'a Examined, slot: u8) -> Result<&'a Grown, Answer>
    ensures grown { IfOk result (λ g. (seen.now.grown ≡ Some g.now) × (slot < slot_count)) }
    ensures stage { OfAll slot seen.now (λ s. Stage (session_conditions s slot) result) }
{
    let grown = known(seen, slot)?;
    if policy::is_free(seen.slots[slot as usize]) {
        return Err(Answer::of(answer::SLOT_FREE));
    }
    Ok(grown)
}

// 17, 8, 9, 12, 13, 14: whether the session's role passes a row of the file.
fn row_passed<'a>(
    seen: &'a Examined,
    slot: u8,
    file: u8,
    mode: u8,
    row: usize,
) -> Result<&'a Grown, Answer>
    requires { Seen slot file seen.now × (IsMode mode → IsMode row) }
    ensures grown { IfOk result (λ g. seen.now.grown ≡ Some g.now) }
    ensures stage { Of slot file seen.now (λ s. Stage (row_conditions s slot file mode row) result) }
{
    let grown = in_session(seen, slot)?;
    if seen.nfiles <= file as usize {
        return Err(Answer::of(answer::NO_FILE));
    }
    if policy::MODES <= mode as usize {
        return Err(Answer::of(answer::NO_MODE));
    }
    if !rules::passes(grown, &seen.role, &seen.file, row) {
        return Err(Answer::of(answer::ROW_NOT_PASSED));
    }
    Ok(grown)
}

// 17, 8, 9, 12, 13, 14, 6: whether the session's role passes the Change Protection row, and both expressions are in order.
fn store_right<'a>(
    seen: &'a Examined,
    slot: u8,
    file: u8,
    mode: u8,
    kind: Kind,
    x: &[u8],
    y: &[u8],
) -> Result<&'a Grown, Answer>
    requires { Seen slot file seen.now }
    ensures grown { IfOk result (λ g. seen.now.grown ≡ Some g.now) }
    ensures stage { Of slot file seen.now (λ s. Stage (store_conditions kind s slot file mode x.now y.now) result) }
{
    let grown = row_passed(seen, slot, file, mode, policy::CHANGE_PROTECTION)?;
    // (An Answer, and no Result: `order::both_in_order` is public and promises one.)
    let both = order::both_in_order(grown, kind, x, y);
    if both.granted() {
        return Ok(grown);
    }
    Err(both)
}

// The slots as they are, and this file in the place of the one that was seen.
fn file_effect(seen: &Examined, answer: Answer, file: File) -> Effect
    ensures { result ≡ effect_of answer seen.now.slots seen.now.at file }
{
    Effect {
        answer,
        slots: seen.slots,
        at: seen.at,
        file,
    }
}

// A grant: the slots with one of them being this, and the file as it is.
fn slot_effect(seen: &Examined, slot: usize, with: u16) -> Effect
    requires { slot < slot_count }
    ensures { result ≡ effect_of fine (set seen.now.slots slot with) seen.now.at seen.now.file }
{
    let mut held = seen.slots;
    held[slot] = with;
    Effect {
        answer: Answer::of(answer::DONE),
        slots: held,
        at: seen.at,
        file: seen.file,
    }
}

// A grant: the file with both stored in its row of that mode, from that part on and two parts on: T1 with T2, or E with G.
fn store_effect(seen: &Examined, mode: u8, part: Part, x: &[u8], y: &[u8]) -> Effect
    requires { (part_number part < 2) × IsMode mode × (length x.now ≤ longest) × (length y.now ≤ longest) }
    ensures { result ≡ effect_of fine seen.now.slots seen.now.at (put_pair seen.now.file (file_place mode (part_number part)) x.now y.now) }
{
    let k = policy::file_place(mode as usize, part);
    file_effect(
        seen,
        Answer::of(answer::DONE),
        policy::put_pair(&seen.file, k, x, y),
    )
}

// begin: 17, 8, 10, 11. Where all hold the free slot is to hold the role asked for.
fn judge_begin(seen: &Examined, slot: u8, role: u8) -> Result<Effect, Answer>
    ensures { OfAll slot seen.now (λ s. Judges s (begin_conditions s slot role) (with_hold s slot (By role)) result) }
{
    known(seen, slot)?;
    if !policy::is_free(seen.slots[slot as usize]) {
        return Err(Answer::of(answer::SLOT_TAKEN));
    }
    if seen.nroles <= role as usize {
        return Err(Answer::of(answer::NO_ROLE));
    }
    Ok(slot_effect(seen, slot as usize, policy::held_by(role)))
}

// end: 17, 8, 9. Where all hold the slot is to be free.
fn judge_end(seen: &Examined, slot: u8) -> Result<Effect, Answer>
    ensures { OfAll slot seen.now (λ s. Judges s (end_conditions s slot) (with_hold s slot Free) result) }
{
    in_session(seen, slot)?;
    Ok(slot_effect(seen, slot as usize, policy::FREE))
}

// ask: 17, 8, 9, 12, 13, 14, 15. Alters nothing.
fn judge_ask(seen: &Examined, slot: u8, file: u8, mode: u8) -> Result<Effect, Answer>
    requires { Seen slot file seen.now }
    ensures { Of slot file seen.now (λ s. Judges s (ask_conditions s slot file mode) s result) }
{
    let grown = row_passed(seen, slot, file, mode, mode as usize)?;
    if !rules::mediates(grown, &seen.role, &seen.file, mode as usize) {
        return Err(Answer::of(answer::MEDIATING_UNFIT));
    }
    Ok(file_effect(seen, Answer::of(answer::DONE), seen.file))
}

// change: 17, 8, 9, 12, 13, 14, 6. Where all hold T1 and T2 are to be stored.
fn judge_change(
    seen: &Examined,
    slot: u8,
    file: u8,
    mode: u8,
    t1: &[u8],
    t2: &[u8],
) -> Result<Effect, Answer>
    requires { Seen slot file seen.now }
    ensures { Of slot file seen.now (λ s. Judges s (change_conditions s slot file mode t1.now t2.now) (with_t1_t2 s file mode t1.now t2.now) result) }
{
    store_right(seen, slot, file, mode, Kind::Protection, t1, t2)?;
    Ok(store_effect(seen, mode, Part::T1, t1, t2))
}

// bypass: 17, 8, 9, 12, 13, 14, 6, 16. Where all hold E and G are to be stored.
fn judge_bypass(
    seen: &Examined,
    slot: u8,
    file: u8,
    mode: u8,
    e: &[u8],
    g: &[u8],
) -> Result<Effect, Answer>
    requires { Seen slot file seen.now }
    ensures { Of slot file seen.now (λ s. Judges s (bypass_conditions s slot file mode e.now g.now) (with_e_g s file mode e.now g.now) result) }
{
    let grown = store_right(seen, slot, file, mode, Kind::Privilege, e, g)?;
    if !rules::covers(grown, &seen.role, &seen.file, mode as usize, e, g) {
        return Err(Answer::of(answer::BYPASS_LACKS));
    }
    Ok(store_effect(seen, mode, Part::E, e, g))
}

// What was judged, as an effect: with a refusal all is as it was.
fn settle(seen: &Examined, judged: Result<Effect, Answer>) -> Effect
    ensures { ComesTo seen.now judged result }
{
    match judged {
        Ok(made) => made,
        Err(refusal) => file_effect(seen, refusal, seen.file),
    }
}

// begin(slot, role) on the state that was seen so: a free slot is to hold the role asked for.
pub fn begin_seen(seen: &Examined, slot: u8, role: u8) -> Effect
    requires { SeenAt slot seen.now }
    ensures { OfAll slot seen.now (λ s. Tells s (Begins s slot role) result) }
{
    settle(seen, judge_begin(seen, slot, role))
}

// end(slot) on the state that was seen so: the slot is to be free.
pub fn end_seen(seen: &Examined, slot: u8) -> Effect
    requires { SeenAt slot seen.now }
    ensures { OfAll slot seen.now (λ s. Tells s (Ends s slot) result) }
{
    settle(seen, judge_end(seen, slot))
}

// ask(slot, file, mode) on the state that was seen so: whether the session's role may act on the file in that mode. Alters nothing.
pub fn ask_seen(seen: &Examined, slot: u8, file: u8, mode: u8) -> Effect
    requires { Seen slot file seen.now }
    ensures { Of slot file seen.now (λ s. Tells s (Asks s slot file mode) result) }
{
    settle(seen, judge_ask(seen, slot, file, mode))
}

// change(slot, file, mode, T1, T2) on the state that was seen so: both are to be stored in the file's row of that mode.
pub fn change_seen(seen: &Examined, slot: u8, file: u8, mode: u8, t1: &[u8], t2: &[u8]) -> Effect
    requires { Seen slot file seen.now }
    ensures { Of slot file seen.now (λ s. Tells s (Changes s slot file mode t1.now t2.now) result) }
{
    settle(seen, judge_change(seen, slot, file, mode, t1, t2))
}

// bypass(slot, file, mode, E, G) on the state that was seen so: both are to be stored in the file's row of that mode.
pub fn bypass_seen(seen: &Examined, slot: u8, file: u8, mode: u8, e: &[u8], g: &[u8]) -> Effect
    requires { Seen slot file seen.now }
    ensures { Of slot file seen.now (λ s. Tells s (Bypasses s slot file mode e.now g.now) result) }
{
    settle(seen, judge_bypass(seen, slot, file, mode, e, g))
}

// begin(slot, role).
pub fn begin(s: &State, slot: u8, role: u8) -> Effect
    ensures { Tells s.now (Begins s.now slot role) result }
{
    let seen = s.examine(slot as usize, 0);
    begin_seen(&seen, slot, role)
}

// end(slot).
pub fn end(s: &State, slot: u8) -> Effect
    ensures { Tells s.now (Ends s.now slot) result }
{
    let seen = s.examine(slot as usize, 0);
    end_seen(&seen, slot)
}

// ask(slot, file, mode).
pub fn ask(s: &State, slot: u8, file: u8, mode: u8) -> Effect
    ensures { Tells s.now (Asks s.now slot file mode) result }
{
    let seen = s.examine(slot as usize, file as usize);
    ask_seen(&seen, slot, file, mode)
}

// change(slot, file, mode, T1, T2).
pub fn change(s: &State, slot: u8, file: u8, mode: u8, t1: &[u8], t2: &[u8]) -> Effect
    ensures { Tells s.now (Changes s.now slot file mode t1.now t2.now) result }
{
    let seen = s.examine(slot as usize, file as usize);
    change_seen(&seen, slot, file, mode, t1, t2)
}

// bypass(slot, file, mode, E, G).
pub fn bypass(s: &State, slot: u8, file: u8, mode: u8, e: &[u8], g: &[u8]) -> Effect
    ensures { Tells s.now (Bypasses s.now slot file mode e.now g.now) result }
{
    let seen = s.examine(slot as usize, file as usize);
    bypass_seen(&seen, slot, file, mode, e, g)
}
