// The state: the tree, roles, files and slots; the fresh state; its examination; stores (01, "Rows, roles and the test", "Requests").
#![tactic(auto)]

ghost use Rattle.std.specs.Prelude.{◌≡◌, true, ◌↔◌, ◌+◌, ◌<◌, ◌≤◌, ltb, length, get_or};
ghost use Rattle.expression.specs.Bytes.{longest};
ghost use Rattle.shelf.specs.Shelf.{stored_at, PutAt};
ghost use Rattle.tree.specs.Tree.{IsTree};
ghost use Rattle.policy.specs.State.{IsMode, most_roles, most_files, file_places, sense_number, part_number, role_place, file_place};
ghost use Rattle.policy.specs.State.{fresh_state, Free, By, held_in, slot_with, role_in, put_pair};
ghost use Rattle.policy.specs.WellFormed.{WellFormed, Examines};
ghost use Rattle.policy.specs.Fine.{Shelving, OneIs, AllAre, SlotIs, SlotsAre, RoleHeld, TreeFine, GrownIf, PartsFine};

mod files;
mod roles;

use expression::LONGEST;
use securon::ROOM;
use tree::{Grown, Tree, TreeSize};

// The most roles and the most files; the slots.
pub const ROLES: usize = 32;

pub const FILES: usize = 32;

pub const SLOTS: usize = 16;

// The modes: numbers, since a request and C have any byte as a mode (13 for every other), and the definitions of rows (`IsMode`) are over numbers.
pub const MODES: usize = 5;

pub const READ: usize = 0;

pub const WRITE: usize = 1;

pub const EXECUTE: usize = 2;

pub const DETECT: usize = 3;

pub const CHANGE_PROTECTION: usize = 4;

// A role's places: V+ and V- mode after mode, then M1, M2, B.
pub const SENSES: usize = 2;

#[derive(Clone, Copy, Debug, PartialEq, Eq)]
pub enum Sense {
    Plus,
    Minus,
}

pub const M1_PLACE: usize = SENSES * MODES;

pub const M2_PLACE: usize = M1_PLACE + 1;

pub const B_PLACE: usize = M1_PLACE + 2;

pub const ROLE_PLACES: usize = M1_PLACE + 3;

pub const ROLE_BYTES: usize = LONGEST * ROLE_PLACES;

// A file's places: T1, E, T2, G mode after mode.
pub const PARTS: usize = 4;

#[derive(Clone, Copy, Debug, PartialEq, Eq)]
pub enum Part {
    T1,
    E,
    T2,
    G,
}

pub const FILE_PLACES: usize = PARTS * MODES;

pub const FILE_BYTES: usize = LONGEST * FILE_PLACES;

// A role and a file are shelves of expressions (crate shelf). Two structs, and not one with its sizes as parameters, since C keeps them:
// an exported function takes no struct with parameters.
#[repr(C)]
#[derive(Clone, Copy)]
pub struct Role {
    pub lens: [u8; ROLE_PLACES],
    pub bytes: [u8; ROLE_BYTES],
}

#[repr(C)]
#[derive(Clone, Copy)]
pub struct File {
    pub lens: [u8; FILE_PLACES],
    pub bytes: [u8; FILE_BYTES],
}

// A slot is a number: 0 is free, k + 1 holds role k. The state holds numbers alone, so that any memory of its size is a state.
pub const FREE: u16 = 0;

// Roles and files are arrays with a count beside them: fixed memory, which C keeps.
#[repr(C)]
#[derive(Clone, Copy)]
pub struct State {
    pub tree: Tree,
    pub nroles: usize,
    pub roles: [Role; ROLES],
    pub nfiles: usize,
    pub files: [File; FILES],
    pub slots: [u16; SLOTS],
}

// What the examination of a state finds: where it is well formed, its tree with the levels. With it all that a request needs of the state,
// so that the state is gone through once: the tree, the counts, the slots, the role that a slot holds, and a file with its number.
#[derive(Clone, Copy)]
pub struct Examined {
    pub grown: Option<Grown>,
    pub tree: Tree,
    pub nroles: usize,
    pub nfiles: usize,
    pub slots: [u16; SLOTS],
    pub role: Role,
    pub at: usize,
    pub file: File,
}

// The place of V+ or V- of a mode. (By itself, as `file_place` is: one function for both would need a trait over two enums.)
pub fn role_place(mode: usize, sense: Sense) -> usize
    requires { IsMode mode }
    ensures { result ≡ role_place mode (sense_number sense) }
{
    let sense = sense as usize;
    SENSES * mode + sense
}

// The place of T1, E, T2 or G of a mode.
pub fn file_place(mode: usize, part: Part) -> usize
    requires { IsMode mode }
    ensures { result ≡ file_place mode (part_number part) }
{
    let part = part as usize;
    PARTS * mode + part
}

// Whether a slot is free.
pub fn is_free(slot: u16) -> bool
    ensures { (result ≡ true) ↔ (held_in slot ≡ Free) }
{
    slot == FREE
}

// The slot that holds a role.
pub fn held_by(role: u8) -> u16
    ensures { result ≡ slot_with (By role) }
{
    u16::from(role) + 1
}

// What roles and files have in common: they are shelves.
pub trait Row {
    ghost shelves: { Shelving Self };

    // The expression at place k.
    fn stored(&self, k: usize) -> &[u8]
        requires { (k < shelves.places) × (get_or (shelves.lens_of self.now) k 0 ≤ longest) }
        ensures { result.now ≡ stored_at (shelves.lens_of self.now) (shelves.bytes_of self.now) k };

    // Stores x at place k; all else stays.
    fn put(&mut self, k: usize, x: &[u8])
        requires { (k < shelves.places) × (length x.now ≤ longest) }
        ensures { PutAt (shelves.lens_of self.old) (shelves.bytes_of self.old) k x.now (shelves.lens_of self.new) (shelves.bytes_of self.new) };

    // One that is there is fine; one that is not is zero.
    fn is_used_or_zero(&self, used: bool, size: TreeSize) -> bool
        ensures { (result ≡ true) ↔ OneIs shelves used size.n size.depth.0 self.now };
}

// All roles, or all files: those below the count are there. A flag and no early return, as in `shelf::all_zero`.
fn all_are<R: Row>(rows: &[R], count: usize, size: TreeSize) -> bool
    requires { length rows.now ≡ R.shelves.most }
    ensures { (result ≡ true) ↔ AllAre R.shelves (λ i. ltb i count) size.n size.depth.0 rows.now }
{
    let mut ok = true;
    for (i, row) in rows.iter().enumerate() {
        ok &= row.is_used_or_zero(i < count, size);
    }
    ok
}

// A number below `most`: the one that is asked for, where it is one, else 0. (No Option: `Examines` promises the 0.)
fn below(want: usize, most: usize) -> usize
    requires { 0 < most }
    ensures { (result < most) × (want < most → result ≡ want) × (most ≤ want → result ≡ 0) }
{
    if want < most {
        return want;
    }
    0
}

// A role that a slot holds is below the count.
fn slot_is(slot: u16, count: usize) -> bool
    ensures { (result ≡ true) ↔ SlotIs count slot }
{
    usize::from(slot) <= count
}

// Every held role is below the count.
fn slots_are(slots: &[u16; SLOTS], count: usize) -> bool
    ensures { (result ≡ true) ↔ SlotsAre count slots.now }
{
    let mut ok = true;
    for slot in slots {
        ok &= slot_is(*slot, count);
    }
    ok
}

// The number of the role that a slot holds; 0 where it is free.
fn number_held(slot: u16) -> usize
    ensures { result ≡ role_in (held_in slot) }
{
    usize::from(slot.saturating_sub(1))
}

// The number of the role of a session, below 32 whatever the slot.
fn role_held(slots: &[u16; SLOTS], slot: usize) -> usize
    ensures { RoleHeld slots.now slot result }
{
    let held = slots.get(slot).copied().unwrap_or(FREE);
    below(number_held(held), ROLES)
}

// Of a tree, whether the parents that no securon has, those of the root and from n up, are zero.
fn rest_zero(tree: &Tree) -> bool
    requires { IsTree tree.now }
    ensures { (result ≡ true) ↔ TreeFine tree.now }
{
    let parent = &tree.parent;
    (parent[0] == 0) & shelf::all_zero(&parent[tree.n..])
}

// The tree with its levels, where it is one and unused room is zero.
fn examine_tree(tree: &Tree) -> Option<Grown>
    ensures { GrownIf (TreeFine tree.now) tree.now result }
{
    if tree.grown() && rest_zero(tree) {
        return Some(tree.grow());
    }
    None
}

// The file with x stored at place k, and y two places on: T1 with T2, or E with G.
pub fn put_pair(file: &File, k: usize, x: &[u8], y: &[u8]) -> File
    requires { (k + 2 < file_places) × (length x.now ≤ longest) × (length y.now ≤ longest) }
    ensures { result ≡ put_pair file.now k x.now y.now }
{
    let mut stored = *file;
    stored.put(k, x);
    stored.put(k + 2, y);
    stored
}

impl State {
    // The fresh state has the root alone, no role, no file, all slots free.
    pub fn fresh() -> State
        ensures { result ≡ fresh_state }
    {
        State {
            tree: Tree {
                n: 1,
                parent: [0; ROOM],
            },
            nroles: 0,
            roles: [Role::ZERO; ROLES],
            nfiles: 0,
            files: [File::ZERO; FILES],
            slots: [FREE; SLOTS],
        }
    }

    // Whether every role and file that is there is fine, each that is not is zero, and the counts and slots fit.
    fn parts_fine(&self, size: TreeSize) -> bool
        ensures { (result ≡ true) ↔ PartsFine self.now size.n size.depth.0 }
    {
        let counts = (self.nroles <= ROLES) & (self.nfiles <= FILES);
        let roles = all_are(&self.roles, self.nroles, size);
        let files = all_are(&self.files, self.nfiles, size);
        counts & roles & files & slots_are(&self.slots, self.nroles)
    }

    // The tree with its levels, where the state is well formed.
    fn grown(&self) -> Option<Grown>
        ensures { GrownIf (WellFormed self.now) self.now.tree result }
    {
        let grown = examine_tree(&self.tree)?;
        if self.parts_fine(grown.size()) {
            return Some(grown);
        }
        None
    }

    // Where the state is well formed, its tree with the levels; with all that a request needs of it, the role that a slot holds and a file among it.
    pub fn examine(&self, slot: usize, file: usize) -> Examined
        ensures { Examines self.now slot file result }
    {
        let mine = role_held(&self.slots, slot);
        let at = below(file, FILES);
        Examined {
            grown: self.grown(),
            tree: self.tree,
            nroles: self.nroles,
            nfiles: self.nfiles,
            slots: self.slots,
            role: self.roles[mine],
            at,
            file: self.files[at],
        }
    }
}
