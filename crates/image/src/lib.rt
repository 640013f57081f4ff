// Loading a policy image (01, "Image", "Requests": load): each reader tells what comes of its format (specs/Image), the whole in one pass.
#![tactic(auto)]

ghost use Rattle.std.specs.Prelude.{◌≡◌, Bool, true, false, ◌+◌, ◌*◌, ◌-◌, ◌<◌, ◌≤◌, length, replicate};
ghost use Rattle.std.specs.declared.result.Result.TheVariants.{Ok, Err};
ghost use Rattle.tree.specs.Tree.{InRange};
ghost use Rattle.expression.specs.Bytes.{longest};
ghost use Rattle.fields.specs.Reading.{ReadsSome};
ghost use Rattle.policy.specs.State.{no_role, no_file};
ghost use Rattle.image.specs.Image.{Expressions, head, in_use, stated, shelf as shelf_of, policy_image};
ghost use Rattle.image.specs.Load.{as_role, as_file, state_of, Loads};
ghost use Rattle.image.specs.Reading.{ReadsAs, TreeRead, PutRead, kinds_of, Stocked, ShelfRead, RowsRead};

use answer::{
    Answer, COUNT_WRONG, ENDS_EARLY, EXPRESSION_WRONG, MARK_WRONG, PARENT_WRONG, VERSION_WRONG,
};
use expression::{Kind, LONGEST};
use fields::{Read, Refused};
use order::Scanned;
use policy::{FILES, File, ROLES, Role, State};
use securon::ROOM;
use tree::{Tree, TreeSize};

// Mark `SPT`.
const MARK_S: usize = 83;

const MARK_P: usize = 80;

const MARK_T: usize = 84;

// The first version that is known, and the latest.
const FIRST: usize = 1;

const LATEST: usize = 1;

// The most securons of an image of version 1.
const MOST_IN_VERSION_1: usize = 64;

// What a load gives back, and the state after it. (Not a Result: after a refusal the state is there too, and `Loads` speaks of both.)
#[derive(Clone, Copy)]
pub struct Loaded {
    pub answer: Answer,
    pub state: State,
}

// The mark and the version.
fn read_head(image: &[u8]) -> Result<usize, Refused>
    ensures { ReadsSome (head in_use.latest) image.now (Ok 0) result }
{
    let s = fields::read_byte(image, Ok(0), MARK_S, MARK_S, MARK_WRONG)?;
    let p = fields::read_byte(image, Ok(s.next), MARK_P, MARK_P, MARK_WRONG)?;
    let t = fields::read_byte(image, Ok(p.next), MARK_T, MARK_T, MARK_WRONG)?;
    let version = fields::read_word(image, Ok(t.next), FIRST, LATEST, VERSION_WRONG)?;
    Ok(version.next)
}

// The parents of securons 1 up, and the tree that they make.
fn read_tree(image: &[u8], at: usize, n: usize) -> Result<Read<Tree>, Refused>
    requires { InRange n }
    ensures { TreeRead n image.now (Ok at) result }
{
    let mut parent = [0u8; ROOM];
    let mut next = at;
    for (k, up) in parent[1..n].iter_mut().enumerate() {
        let read = fields::read_byte(image, Ok(next), 0, k, PARENT_WRONG)?;
        // The parent is at most k, so the cast is proved to lose nothing; a conversion that can fail would have a case that never comes.
        *up = read.value as u8;
        next = read.next;
    }
    Ok(Read {
        value: Tree { n, parent },
        next,
    })
}

// A refusal.
fn refusal(number: u8, place: usize) -> Refused
    ensures { result ≡ record { number = number; place = place } }
{
    Refused { number, place }
}

// The stated bytes of an expression, which are all there.
fn all_there(
    image: &[u8],
    at: usize,
    m: usize,
    kind: Kind,
    size: TreeSize,
) -> Result<usize, Refused>
    requires { at + m ≤ length image.now }
    ensures { ReadsSome (stated kind (size.n - 1) size.depth.0 m) image.now (Ok at) result }
{
    let end = at + m;
    match order::scan(&image[at..end], kind, size) {
        Scanned::Whole => Ok(end),
        Scanned::Short => Err(refusal(EXPRESSION_WRONG, end)),
        Scanned::Fault(k) => Err(refusal(EXPRESSION_WRONG, at + k)),
    }
}

// Those that are there, where the image ends before the stated end: in any case a refusal.
fn cut(image: &[u8], at: usize, m: usize, kind: Kind, size: TreeSize) -> Refused
    requires { (at ≤ length image.now) × (length image.now < at + m) }
    ensures { ReadsSome (stated kind (size.n - 1) size.depth.0 m) image.now (Ok at) (Err result) }
{
    match order::scan(&image[at..], kind, size) {
        Scanned::Whole => refusal(ENDS_EARLY, image.len()),
        Scanned::Short => refusal(ENDS_EARLY, image.len()),
        Scanned::Fault(k) => refusal(EXPRESSION_WRONG, at + k),
    }
}

// The stated bytes of an expression.
fn read_stated(
    image: &[u8],
    at: usize,
    m: usize,
    kind: Kind,
    size: TreeSize,
) -> Result<usize, Refused>
    requires { at ≤ length image.now }
    ensures { ReadsSome (stated kind (size.n - 1) size.depth.0 m) image.now (Ok at) result }
{
    if image.len() - at < m {
        return Err(cut(image, at, m, kind, size));
    }
    all_there(image, at, m, kind, size)
}

// An expression, its length byte and its bytes, stored at place k of a shelf.
fn read_part(
    image: &[u8],
    at: usize,
    kind: Kind,
    size: TreeSize,
    k: usize,
    lens: &mut [u8],
    bytes: &mut [u8],
) -> Result<usize, Refused>
    requires { (k < length lens.old) × (longest * k + longest ≤ length bytes.old) }
    ensures { PutRead kind size.n size.depth.0 image.now (Ok at) k lens.old bytes.old lens.new bytes.new result }
{
    let lead = fields::read_byte(image, Ok(at), 0, LONGEST, EXPRESSION_WRONG)?;
    let end = read_stated(image, lead.next, lead.value, kind, size)?;
    shelf::put(lens, bytes, k, &image[lead.next..end]);
    Ok(end)
}

// The expressions of a role or a file, place after place. (By number, of which the place's kind and its room are made; `file` as shelf has it.)
fn read_shelf(
    image: &[u8],
    at: usize,
    file: bool,
    size: TreeSize,
    lens: &mut [u8],
    bytes: &mut [u8],
) -> Result<usize, Refused>
    requires { Stocked (length (kinds_of file)) lens.old bytes.old }
    ensures { ShelfRead (shelf_of (kinds_of file) (size.n - 1) size.depth.0) image.now (Ok at) lens.new bytes.new result }
{
    let mut next = at;
    for k in 0..lens.len() {
        next = read_part(image, next, shelf::kind_at(file, k), size, k, lens, bytes)?;
    }
    Ok(next)
}

// What roles and files have in common: a shelf of expressions, of the kinds of the one or of the other, that is read into a row of zero.
trait Row: Copy {
    ghost file: { Bool };

    ghost make: { Expressions → Self };

    ghost none: { Self };

    // One of them.
    fn read(image: &[u8], at: usize, size: TreeSize) -> Result<Read<Self>, Refused>
        ensures { ReadsAs (shelf_of (kinds_of file) (size.n - 1) size.depth.0) make image.now (Ok at) result };
}

impl Row for Role {
    ghost file = { false };

    ghost make = { as_role };

    ghost none = { no_role };

    fn read(image: &[u8], at: usize, size: TreeSize) -> Result<Read<Role>, Refused> {
        let mut row = Role::ZERO;
        let next = read_shelf(image, at, false, size, &mut row.lens, &mut row.bytes)?;
        Ok(Read { value: row, next })
    }
}

impl Row for File {
    ghost file = { true };

    ghost make = { as_file };

    ghost none = { no_file };

    fn read(image: &[u8], at: usize, size: TreeSize) -> Result<Read<File>, Refused> {
        let mut row = File::ZERO;
        let next = read_shelf(image, at, true, size, &mut row.lens, &mut row.bytes)?;
        Ok(Read { value: row, next })
    }
}

// So many roles or files, into rows of zero; those from the count up stay zero.
fn read_rows<R: Row>(
    image: &[u8],
    at: usize,
    size: TreeSize,
    count: usize,
    rows: &mut [R],
) -> Result<usize, Refused>
    requires zero { rows.old ≡ replicate (length rows.old) R.none }
    requires few { count ≤ length rows.old }
    ensures { RowsRead R.make R.none (length rows.old) (shelf_of (kinds_of R.file) (size.n - 1) size.depth.0) count image.now (Ok at) rows.new result }
{
    let mut next = at;
    for row in rows[..count].iter_mut() {
        let read = R::read(image, next, size)?;
        *row = read.value;
        next = read.next;
    }
    Ok(next)
}

// The whole image, in one pass, and the state that its policy makes.
fn read_image(image: &[u8]) -> Result<Read<State>, Refused>
    ensures { ReadsAs (policy_image in_use) state_of image.now (Ok 0) result }
{
    let top = read_head(image)?;
    let securons = fields::read_byte(image, Ok(top), 1, MOST_IN_VERSION_1, COUNT_WRONG)?;
    let grown = read_tree(image, securons.next, securons.value)?;
    let tree = grown.value;
    let levels = tree.levels();
    let size = TreeSize {
        n: tree.n,
        depth: levels.depth,
    };
    let mut state = State::fresh();
    state.tree = tree;
    let roles = fields::read_byte(image, Ok(grown.next), 0, ROLES, COUNT_WRONG)?;
    state.nroles = roles.value;
    let after = read_rows(image, roles.next, size, roles.value, &mut state.roles)?;
    let files = fields::read_byte(image, Ok(after), 0, FILES, COUNT_WRONG)?;
    state.nfiles = files.value;
    let next = read_rows(image, files.next, size, files.value, &mut state.files)?;
    Ok(Read { value: state, next })
}

// Replaces all by the policy of the image and frees every slot; a refusal keeps the state as it was. The prior state isn't examined.
pub fn load(state: State, image: &[u8]) -> Loaded
    ensures { Loads image.now state result }
{
    match read_image(image) {
        Ok(policy) => {
            let answer = fields::answer_at_end(image, Ok(policy.next));
            if answer.granted() {
                return Loaded {
                    answer,
                    state: policy.value,
                };
            }
            Loaded { answer, state }
        }
        Err(refused) => Loaded {
            answer: fields::answer_at_end(image, Err(refused)),
            state,
        },
    }
}
