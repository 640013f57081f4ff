// The box that callers keep, and what a record does to it.
#![tactic(auto)]

ghost use Rattle.std.specs.Prelude.{◌≡◌, ◌<◌, ◌≤◌, length, get_or};
ghost use Rattle.policy.specs.Seen.{Seen, SeenOnce};
ghost use Rattle.machine.specs.Machine.{load, Step};
ghost use Rattle.records.specs.Walk.{spanned};
ghost use Rattle.door.specs.Box.{fresh_box};
ghost use Rattle.door.specs.Inner.{Inside, byte_in, SeenIn, EffectIs, LoadIs, PrintsSeen, ServedIs};

use answer::Answer;
use gate::Effect;
use policy::{Examined, State};
use records::Span;

// The box. It holds numbers alone, so that any memory of its size is a box.
#[repr(C)]
#[derive(Clone, Copy)]
pub struct BoxRecord {
    pub state: State,
}

// The codes of a load and of a print: bytes of a record, by the table of records.
const LOAD: u8 = 6;

const PRINT: u8 = 0x10;

// What bytes that are no record are answered: a number that 01's table does not have, at place 0. (A number, which C publishes.)
const NO_RECORD: u8 = 255;

// What bytes came to: the answer, and how many bytes were given out.
#[derive(Clone, Copy, PartialEq, Eq, Debug)]
pub struct Served {
    pub answer: Answer,
    pub given: usize,
}

// The box with the fresh state.
pub fn fresh_box() -> BoxRecord
    ensures { result ≡ fresh_box }
{
    BoxRecord {
        state: State::fresh(),
    }
}

// load(image) on the box.
pub fn load_box(b: &mut BoxRecord, image: &[u8]) -> Answer
    ensures loads { Step b.old.state (load image.now) result b.new.state }
    ensures small { result.place < 65536 }
{
    let loaded = image::load(b.state, image);
    b.state = loaded.state;
    loaded.answer
}

// The bytes of a field.
fn field_of(rec: &[u8], field: Span) -> &[u8]
    requires { (field.from ≤ field.to) × (field.to ≤ length rec.now) }
    ensures { result.now ≡ spanned rec.now field }
{
    &rec[field.from..field.to]
}

// The first byte of a field. Of an empty one, 0.
fn first_of(rec: &[u8], field: Span) -> u8
    requires { (field.from ≤ field.to) × (field.to ≤ length rec.now) }
    ensures { result ≡ get_or (spanned rec.now field) 0 0 }
{
    field_of(rec, field).first().copied().unwrap_or(0)
}

// What a call has to know of the box: the examination, for the slot and the file that the first two fields name.
fn seen_in(b: &BoxRecord, rec: &[u8], fields: &[Span; records::MOST_FIELDS]) -> Examined
    requires { Inside rec.now fields.now }
    ensures { SeenIn b.now.state rec.now fields.now result }
{
    let slot = first_of(rec, fields[0]);
    let file = first_of(rec, fields[1]);
    b.state.examine(slot as usize, file as usize)
}

// The request of a record other than a load and a print, by its code, from its fields: three bytes and two expressions. What a request does not take has
// no say.
fn effect_in(seen: &Examined, rec: &[u8], code: u8, fields: &[Span; records::MOST_FIELDS]) -> Effect
    requires { (0 < code) × Inside rec.now fields.now × Seen (byte_in rec.now fields.now 0) (byte_in rec.now fields.now 1) seen.now }
    ensures { EffectIs seen.now rec.now code fields.now result }
{
    let slot = first_of(rec, fields[0]);
    let a = first_of(rec, fields[1]);
    let b = first_of(rec, fields[2]);
    let x = field_of(rec, fields[3]);
    let y = field_of(rec, fields[4]);
    machine::effect_seen(seen, code, slot, a, b, x, y)
}

// The print of an expression.
fn print_record(seen: &Examined, x: &[u8], out: &mut [u8]) -> Served
    requires { SeenOnce seen.now }
    ensures { PrintsSeen seen.now x.now out.old result out.new }
{
    let answer = print::print_seen(seen, x, out);
    Served {
        answer,
        given: answer.given(),
    }
}

// One whole record and nothing after it, on the box. What bytes the call gives out go to the front of out: of a print alone, which alters nothing. Any
// other bytes are no record, and nothing is altered.
pub fn serve(b: &mut BoxRecord, rec: &[u8], out: &mut [u8]) -> Served
    ensures { ServedIs b.old rec.now out.old result b.new out.new }
{
    let Some(found) = records::read_alone(rec) else {
        return Served {
            answer: Answer::of(NO_RECORD),
            given: 0,
        };
    };
    let fields = found.fields;
    if found.code == LOAD {
        return Served {
            answer: load_box(b, field_of(rec, fields[0])),
            given: 0,
        };
    }
    let seen = seen_in(b, rec, &fields);
    if found.code == PRINT {
        return print_record(&seen, field_of(rec, fields[0]), out);
    }
    let effect = effect_in(&seen, rec, found.code, &fields);
    machine::store(&mut b.state, &effect);
    Served {
        answer: effect.answer,
        given: 0,
    }
}

// The record of a load, on the box. Any other bytes are no record here, and nothing is altered.
pub fn load_record(b: &mut BoxRecord, rec: &[u8]) -> Answer
    ensures { LoadIs b.old rec.now result b.new }
{
    let Some(found) = records::read_alone(rec) else {
        return Answer::of(NO_RECORD);
    };
    if found.code != LOAD {
        return Answer::of(NO_RECORD);
    }
    load_box(b, field_of(rec, found.fields[0]))
}
