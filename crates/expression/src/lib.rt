// What expressions in bytes mean (01, "Expressions and what they mean").
#![tactic(auto)]

ghost use Rattle.std.specs.Prelude.{◌≡◌, true, ◌&&◌, ◌||◌, ◌↔◌, ℕ, ◌<◌, length, get_or};
ghost use Rattle.securon.specs.Sets.{◌∪◌, ◌≐◌, marked};
ghost use Rattle.expression.specs.Expression.{Between};
ghost use Rattle.expression.specs.Fronts.{Front, TermFront, Tests, TestsTerm, AddsTerm};
ghost use Rattle.expression.specs.Bytes.{Right, SET, MeetsT1, MeetsT2};
ghost use Rattle.expression.specs.declared.Kind.TheVariants.{Privilege, Protection};

use securon::{Level, Securon, SecuronSet};
use tree::{Grown, related};

// The most bytes that an expression has.
pub const LONGEST: usize = 48;

// The codes: 01 s; 02 s i j; 03 for AND; 04 for OR. They are bytes of the published form, so they are numbers and no enum.
pub const ONE: u8 = 1;

pub const RANGE: u8 = 2;

pub const AND: u8 = 3;

pub const OR: u8 = 4;

// A privilege expression has no OR; a protection expression may have it.
#[derive(Clone, Copy)]
pub enum Kind {
    Privilege,
    Protection,
}

// What a test of the expression at the front says: whether it is met, and how many bytes it has, met or not.
#[derive(Clone, Copy)]
struct Tested {
    met: bool,
    used: usize,
}

// A range term, s[i downto j].
#[derive(Clone, Copy)]
struct Range {
    s: Securon,
    i: Level,
    j: Level,
}

// Whether u is in SET(s[i downto j]): its level, which is at hand, lies from i to j, and it is related to s.
fn between(g: &Grown, range: Range, u: Securon) -> bool
    requires { (range.s.0 < g.now.tree.n) × (u.0 < g.now.tree.n) }
    ensures { (result ≡ true) ↔ Between g.now.tree range.s.0 range.i.0 range.j.0 u.0 }
{
    let level = g.levels.of[u.0 as usize];
    (range.i..=range.j).contains(&level) && related(&g.tree.parent, u, range.s)
}

// Whether a member of SET(s[i downto j]) is held.
fn meets_range(g: &Grown, held: SecuronSet, range: Range) -> bool
    requires { range.s.0 < g.now.tree.n }
    ensures { (result ≡ true) ↔ ((u : ℕ) × Between g.now.tree range.s.0 range.i.0 range.j.0 u × marked held.has u) }
{
    held.has[..g.tree.n]
        .iter()
        .enumerate()
        .any(|(u, has)| *has && between(g, range, Securon(u as u8)))
}

// The set with SET(s[i downto j]) added. (By number: behind an adapter of `iter_mut` there is no index that the invariant could speak of.)
fn with_range(g: &Grown, set: SecuronSet, range: Range) -> SecuronSet
    requires { range.s.0 < g.now.tree.n }
    ensures { marked result.has ≐ marked set.has ∪ Between g.now.tree range.s.0 range.i.0 range.j.0 }
{
    let mut r = set;
    for u in 0..g.tree.n {
        if between(g, range, Securon(u as u8)) {
            r.has[u] = true;
        }
    }
    r
}

// The range term at the front, over the securon s.
fn range_at(s: Securon, rest: &[u8]) -> Range
    requires { 3 < length rest.now }
    ensures { (result.s.0 ≡ s.0) × (result.i.0 ≡ get_or rest.now 2 0) × (result.j.0 ≡ get_or rest.now 3 0) }
{
    Range {
        s,
        i: Level(rest[2]),
        j: Level(rest[3]),
    }
}

// Whether a member of the SET of the term at the front is held.
fn meets_term(g: &Grown, held: SecuronSet, rest: &[u8]) -> bool
    requires { TermFront g.now.tree.n rest.now }
    ensures { TestsTerm g.now.tree (marked held.has) rest.now result }
{
    let s = Securon(rest[1]);
    prove!((s.0 as usize) < g.tree.n);
    if rest[0] == ONE {
        held.holds(s)
    } else {
        meets_range(g, held, range_at(s, rest))
    }
}

// The set with the SET of the term at the front added.
fn with_term(g: &Grown, set: SecuronSet, rest: &[u8]) -> SecuronSet
    requires { TermFront g.now.tree.n rest.now }
    ensures { AddsTerm g.now.tree rest.now (marked set.has) (marked result.has) }
{
    let s = Securon(rest[1]);
    prove!((s.0 as usize) < g.tree.n);
    if rest[0] == ONE {
        set.with(s)
    } else {
        with_range(g, set, range_at(s, rest))
    }
}

// How many bytes a term has, by its code.
fn width(code: u8) -> usize
    ensures { (code ≡ 1 → result ≡ 2) × ((code ≡ 1 → ⊥) → result ≡ 4) }
{
    if code == ONE { 2 } else { 4 }
}

// What an operator makes of its operands' answers.
fn joined(operator: u8, left: bool, right: bool) -> bool
    ensures { (operator ≡ 3 → result ≡ (left && right)) × ((operator ≡ 3 → ⊥) → result ≡ (left || right)) }
{
    if operator == AND {
        left && right
    } else {
        left || right
    }
}

// Whether a held set meets the expression at the front: a call per operand, over the remaining bytes.
fn meets_front(g: &Grown, held: SecuronSet, rest: &[u8]) -> Tested
    requires { Front g.now.tree.n rest.now }
    ensures { Tests g.now.tree (marked held.has) rest.now result.met result.used }
{
    let code = rest[0];
    if code < AND {
        return Tested {
            met: meets_term(g, held, rest),
            used: width(code),
        };
    }
    let left = meets_front(g, held, &rest[1..]);
    let mid = 1 + left.used;
    let right = meets_front(g, held, &rest[mid..]);
    Tested {
        met: joined(code, left.met, right.met),
        used: mid + right.used,
    }
}

// SET of a privilege or of an indelible part: the union of its terms' sets, whatever joins them.
pub fn set_of(g: &Grown, b: &[u8]) -> SecuronSet
    requires { Right Privilege g.now.tree.n g.now.levels.depth.0 b.now }
    ensures { marked result.has ≐ SET g.now.tree b.now }
{
    let mut r = SecuronSet::empty();
    let mut rest = b;
    while !rest.is_empty() {
        let code = rest[0];
        if code == AND {
            rest = &rest[1..];
        } else {
            r = with_term(g, r, rest);
            rest = &rest[width(code)..];
        }
    }
    r
}

// Whether a held set meets T1; of length 0 it is always met. (T1 and T2 are two functions, since each is promised by its name.)
pub fn meets_t1(g: &Grown, held: SecuronSet, b: &[u8]) -> bool
    requires { Right Protection g.now.tree.n g.now.levels.depth.0 b.now }
    ensures { (result ≡ true) ↔ MeetsT1 g.now.tree (marked held.has) b.now }
{
    b.is_empty() || meets_front(g, held, b).met
}

// Whether a held set meets T2; of length 0 it is never met.
pub fn meets_t2(g: &Grown, held: SecuronSet, b: &[u8]) -> bool
    requires { Right Protection g.now.tree.n g.now.levels.depth.0 b.now }
    ensures { (result ≡ true) ↔ MeetsT2 g.now.tree (marked held.has) b.now }
{
    !b.is_empty() && meets_front(g, held, b).met
}
