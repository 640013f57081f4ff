// The box for programs in other languages: calls on a record that its caller keeps, altered where it stands.
#![tactic(auto)]

ghost use Rattle.std.specs.Prelude.{◌≡◌};
ghost use Rattle.door.specs.Box.{fresh_box, Refills, Serves};

use door::BoxRecord;

// The fresh state into the box, whatever it held.
#[unsafe(no_mangle)]
pub extern "C" fn gate_fresh(b: &mut BoxRecord)
    ensures { b.new ≡ fresh_box }
{
    *b = door::fresh_box();
}

// load(image) on the box. The answer's number, and 256 times its place.
#[unsafe(no_mangle)]
pub extern "C" fn gate_load(b: &mut BoxRecord, image: &[u8]) -> u64
    ensures { Refills b.old image.now result b.new }
{
    u64::from(door::load_box(b, image).packed())
}

// One whole record and nothing after it, on the box. What bytes the call gives out go to the front of out. The answer's number, and 256 times its place.
#[unsafe(no_mangle)]
pub extern "C" fn gate_serve(b: &mut BoxRecord, rec: &[u8], out: &mut [u8]) -> u64
    ensures { Serves b.old rec.now out.old result b.new out.new }
{
    u64::from(door::serve(b, rec, out).answer.packed())
}
