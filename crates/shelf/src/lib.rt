// A shelf of expressions: place k has its length in `lens[k]`, and room for its bytes from 48 k on. Roles and files are such shelves.
// Both are lent as two slices: C keeps roles and files, and an exported function takes no struct with a size as its parameter; a struct of two
// slices is no plainer, since each clause then says at which moment it is read (`self.entry.lens.now`).
#![tactic(auto)]

ghost use Rattle.std.specs.Prelude.{◌≡◌, true, ◌↔◌, ◌+◌, ◌*◌, ◌<◌, ◌≤◌, length, get_or};
ghost use Rattle.expression.specs.Bytes.{longest};
ghost use Rattle.shelf.specs.Shelf.{stored_at, PutAt, AllZero, ZeroShelf};
ghost use Rattle.shelf.specs.Fine.{kind_at, PlaceFine, ShelfFine, ShelfIs};

use expression::{Kind, LONGEST};
use tree::TreeSize;

// Whether every byte is zero. A flag and no early return, so that the loop can be vectorised.
pub fn all_zero(s: &[u8]) -> bool
    ensures { (result ≡ true) ↔ AllZero s.now }
{
    let mut none = true;
    for x in s {
        none &= *x == 0;
    }
    none
}

// The kind of the expression at place k: T1 and T2 of a file are protection expressions, all others privilege expressions.
// (`file`, whether it is a file's, is a bool, as `kind_at` and `ShelfFine` have it.)
pub fn kind_at(file: bool, k: usize) -> Kind
    ensures { result ≡ kind_at file k }
{
    if file & (k % 2 == 0) {
        return Kind::Protection;
    }
    Kind::Privilege
}

// One place: its expression in order, and zero past it.
fn place_fine<'a>(file: bool, size: TreeSize, lens: &'a [u8], bytes: &'a [u8], k: usize) -> bool
    requires { (k < length lens.now) × (longest * k + longest ≤ length bytes.now) }
    ensures { (result ≡ true) ↔ PlaceFine (kind_at file k) size.n size.depth.0 lens.now bytes.now k }
{
    let m = usize::from(lens[k]);
    if LONGEST < m {
        return false;
    }
    let at = LONGEST * k;
    let end = at + m;
    let next = at + LONGEST;
    let right = order::in_order(stored(lens, bytes, k), kind_at(file, k), size);
    right & all_zero(&bytes[end..next])
}

// Every place. A flag and no early return, as in `all_zero`; k is the place's number, of which its kind and its start are made.
pub fn fine(file: bool, size: TreeSize, lens: &[u8], bytes: &[u8]) -> bool
    requires { length bytes.now ≡ longest * length lens.now }
    ensures { (result ≡ true) ↔ ShelfFine file size.n size.depth.0 lens.now bytes.now }
{
    let mut ok = true;
    for k in 0..lens.len() {
        ok &= place_fine(file, size, lens, bytes, k);
    }
    ok
}

// Whether all of a shelf is zero.
pub fn zero(lens: &[u8], bytes: &[u8]) -> bool
    ensures { (result ≡ true) ↔ ZeroShelf lens.now bytes.now }
{
    all_zero(lens) & all_zero(bytes)
}

// The shelf of a role or of a file: one that is there is fine, one that is not is zero.
pub fn used_or_zero(used: bool, file: bool, size: TreeSize, lens: &[u8], bytes: &[u8]) -> bool
    requires { length bytes.now ≡ longest * length lens.now }
    ensures { (result ≡ true) ↔ ShelfIs used file (length lens.now) size.n size.depth.0 lens.now bytes.now }
{
    if used {
        return fine(file, size, lens, bytes);
    }
    zero(lens, bytes)
}

// The expression at place k: a part of the bytes.
pub fn stored<'a>(lens: &'a [u8], bytes: &'a [u8], k: usize) -> &'a [u8]
    requires { (k < length lens.now) × (get_or lens.now k 0 ≤ longest) × (longest * k + longest ≤ length bytes.now) }
    ensures { result.now ≡ stored_at lens.now bytes.now k }
{
    let start = LONGEST * k;
    let end = start + usize::from(lens[k]);
    &bytes[start..end]
}

// The bytes of x in place of as many. (One by one: with `copy_from_slice` here the library for C would need `memmove` from whoever links it.)
fn copy(to: &mut [u8], x: &[u8])
    requires { length to.old ≡ length x.now }
    ensures { to.new ≡ x.now }
{
    for (k, byte) in to.iter_mut().enumerate() {
        *byte = x[k];
    }
}

// Stores x at place k: its length, its bytes, and zero past them; all else stays.
pub fn put(lens: &mut [u8], bytes: &mut [u8], k: usize, x: &[u8])
    requires { (k < length lens.old) × (length x.now ≤ longest) × (longest * k + longest ≤ length bytes.old) }
    ensures { PutAt lens.old bytes.old k x.now lens.new bytes.new }
{
    // (`as` is proved to lose nothing here; `u8::try_from` would have a case that never comes.)
    lens[k] = x.len() as u8;
    let at = LONGEST * k;
    let end = at + x.len();
    copy(&mut bytes[at..end], x);
    bytes[end..at + LONGEST].fill(0);
}
