// Small states to make requests on, and parts of them altered: also to what is not well formed.
ghost use Rattle.std.specs.Prelude.{◌*◌, ◌≤◌, length};
ghost use Rattle.expression.specs.Bytes.{longest};

use crate::calls::store;
use expression::LONGEST;
use policy::State;

// The tree of 01's examples, two roles and two files whose expressions are all empty; slot 0 holds role 0.
pub(crate) fn base() -> State {
    let mut image = [0u8; 81];
    image[..14].copy_from_slice(b"SPT\x01\x00\x08\x00\x00\x01\x01\x02\x02\x00\x02");
    image[40] = 2;
    let mut state = image::load(State::fresh(), &image).state;
    store(gate::begin(&state, 0, 0), &mut state);
    state
}

// A length and bytes at a place of a role or a file, and zero past them: in order or not, as many as the length says or not.
fn put(lens: &mut [u8], bytes: &mut [u8], place: usize, m: u8, b: &[u8])
    requires { longest * length lens.old ≤ length bytes.old }
{
    if place < lens.len() && b.len() <= LONGEST {
        shelf::put(lens, bytes, place, b);
        lens[place] = m;
    }
}

// At a place of a role.
pub(crate) fn role(s: &mut State, role: usize, place: usize, m: u8, b: &[u8]) {
    if let Some(role) = s.roles.get_mut(role) {
        put(&mut role.lens, &mut role.bytes, place, m, b);
    }
}

// At a place of a file.
pub(crate) fn file(s: &mut State, file: usize, place: usize, m: u8, b: &[u8]) {
    if let Some(file) = s.files.get_mut(file) {
        put(&mut file.lens, &mut file.bytes, place, m, b);
    }
}

// The length that is stored at a place of file 0.
pub(crate) fn stored_length(s: &State, place: usize) -> u8 {
    s.files[0].lens.get(place).copied().unwrap_or(0)
}

// Another parent.
pub(crate) fn parent(s: &mut State, u: usize, x: u8) {
    if let Some(parent) = s.tree.parent.get_mut(u) {
        *parent = x;
    }
}

// A slot that holds a role.
pub(crate) fn hold(s: &mut State, slot: usize, role: u8) {
    if let Some(slot) = s.slots.get_mut(slot) {
        *slot = policy::held_by(role);
    }
}
