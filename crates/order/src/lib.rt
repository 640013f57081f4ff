// Whether the bytes of an expression are in order, and where their first fault is (01, "In bytes, prefix order", "Place for 6").
#![tactic(auto)]

ghost use Rattle.std.specs.Prelude.{◌≡◌, true, [], ◌∷◌, ◌⊎◌, ◌↔◌, ◌<◌, ◌≤◌, length, get_or, MatchResult};
ghost use Rattle.answer.specs.Answers.{Decides};
ghost use Rattle.securon.specs.Sets.{marked};
ghost use Rattle.tree.specs.Tree.{IsTree};
ghost use Rattle.expression.specs.declared.Kind.TheVariants.{Protection};
ghost use Rattle.expression.specs.Bytes.{MayOR, Right, InOrder};
ghost use Rattle.order.specs.Heads.{Head, NoOperator};
ghost use Rattle.order.specs.Order.{Finds, Checks, MeetsPart, Judges, NamesSET};
ghost use Rattle.order.specs.Conditions.{second, in_order, expression_conditions};

use answer::Answer;
use expression::{AND, Kind, LONGEST, ONE, OR, RANGE};
use securon::{Level, Securon, SecuronSet};
use tree::{Grown, Tree, TreeSize};

// What is added to the places of a request's second expression.
const SECOND: usize = 256;

// What a scan finds: the bytes are right; they are right so far, but not whole; or the first byte that can't stand. Three answers, so no Result.
#[derive(Clone, Copy)]
pub enum Scanned {
    Whole,
    Short,
    Fault(usize),
}

// The place of an expression's first fault.
#[derive(Clone, Copy, Debug, PartialEq, Eq)]
pub struct Wrong(pub usize);

// The mutable parts of a row: they differ in what length 0 means.
#[derive(Clone, Copy)]
pub enum Mutable {
    T1,
    T2,
}

// Whether OR may stand in an expression of this kind.
fn may_or(kind: Kind) -> bool
    ensures { (result ≡ true) ↔ MayOR kind }
{
    matches!(kind, Kind::Protection)
}

// Whether a code is an operator that may stand: AND, and up to OR where it may. (One test of the byte, whatever `or` is: a scan with one for each operator
// took longer.)
fn joins(code: u8, or: bool) -> bool
    ensures { (result ≡ true) ↔ ((code ≡ 3) ⊎ ((code ≡ 4) × (or ≡ true))) }
{
    (AND..=AND + u8::from(or)).contains(&code)
}

// How a scan stops at `at`: at a byte that can't stand, or at the end, where more is needed.
fn stopped(at: usize, end: usize) -> Scanned
    ensures { ((at < end) × (result ≡ Scanned.Fault at)) ⊎ ((end ≤ at) × (result ≡ Scanned.Short)) }
{
    if at < end {
        Scanned::Fault(at)
    } else {
        Scanned::Short
    }
}

// The securon of a term: it is there, and below n; or its place.
fn securon_at(rest: &[u8], n: usize) -> Result<Securon, Wrong>
    ensures { MatchResult result
        (λ s. (1 < length rest.now) × (s.0 ≡ get_or rest.now 1 0) × (s.0 < n))
        (λ w. (w.0 ≡ 1) × (1 < length rest.now → get_or rest.now 1 0 < n → ⊥)) }
{
    let s = rest.get(1).map(|s| Securon(*s));
    s.filter(|s| usize::from(s.0) < n).ok_or(Wrong(1))
}

// A level of a term, the byte at `at`: it is there, and lies from `low` to `high`; or its place.
fn level_at(rest: &[u8], at: usize, low: Level, high: Level) -> Result<Level, Wrong>
    ensures { MatchResult result
        (λ l. (at < length rest.now) × (l.0 ≡ get_or rest.now at 0) × (low.0 ≤ l.0) × (l.0 ≤ high.0))
        (λ w. (w.0 ≡ at) × (at < length rest.now → low.0 ≤ get_or rest.now at 0 → get_or rest.now at 0 ≤ high.0 → ⊥)) }
{
    let level = rest.get(at).map(|l| Level(*l));
    level.filter(|l| (low..=high).contains(l)).ok_or(Wrong(at))
}

// How far 01 s stands: its number of bytes, or the place of the first that can't stand.
fn one_part(rest: &[u8], size: TreeSize) -> Result<usize, Wrong>
    requires { (0 < length rest.now) × (get_or rest.now 0 0 ≡ 1) }
    ensures { (kind : Kind) → Head kind size.n size.depth.0 rest.now result }
{
    securon_at(rest, size.n)?;
    Ok(2)
}

// How far 02 s i j stands: the securon is below n, i is at most the depth, and j lies from i to the depth.
fn range_part(rest: &[u8], size: TreeSize) -> Result<usize, Wrong>
    requires { (0 < length rest.now) × (get_or rest.now 0 0 ≡ 2) }
    ensures { (kind : Kind) → Head kind size.n size.depth.0 rest.now result }
{
    securon_at(rest, size.n)?;
    let i = level_at(rest, 2, Level(0), size.depth)?;
    level_at(rest, 3, i, size.depth)?;
    Ok(4)
}

// How far the term at the front stands; a byte that begins none doesn't stand at all.
fn term_part(rest: &[u8], size: TreeSize) -> Result<usize, Wrong>
    requires { 0 < length rest.now }
    ensures { (kind : Kind) → NoOperator kind (get_or rest.now 0 0) → Head kind size.n size.depth.0 rest.now result }
{
    match rest[0] {
        ONE => one_part(rest, size),
        RANGE => range_part(rest, size),
        _ => Err(Wrong(0)),
    }
}

// A scan of any bytes from the front, head by head: `due` expressions are to follow at `at`, which is counted since it is the place that is answered.
pub fn scan(b: &[u8], kind: Kind, size: TreeSize) -> Scanned
    ensures { Finds kind size.n size.depth.0 b.now result }
{
    if b.is_empty() {
        return Scanned::Whole;
    }
    let or = may_or(kind);
    let mut due = 1usize;
    let mut at = 0usize;
    while at < b.len() {
        if due == 0 {
            return Scanned::Fault(at);
        }
        let rest = &b[at..];
        if joins(rest[0], or) {
            due += 1;
            at += 1;
        } else {
            match term_part(rest, size) {
                Ok(good) => {
                    due -= 1;
                    at += good;
                }
                Err(Wrong(good)) => return stopped(at + good, b.len()),
            }
        }
    }
    if due == 0 {
        Scanned::Whole
    } else {
        Scanned::Short
    }
}

// Whether an expression is in order for its kind, or the place of its first fault, as a request has it.
pub fn check(b: &[u8], kind: Kind, size: TreeSize) -> Result<(), Wrong>
    ensures { Checks kind size.n size.depth.0 b.now result }
{
    if LONGEST < b.len() {
        return Err(Wrong(LONGEST));
    }
    match scan(b, kind, size) {
        Scanned::Whole => Ok(()),
        Scanned::Short => Err(Wrong(b.len())),
        Scanned::Fault(k) => Err(Wrong(k)),
    }
}

// Whether an expression is in order for its kind.
pub fn in_order(b: &[u8], kind: Kind, size: TreeSize) -> bool
    ensures { (result ≡ true) ↔ InOrder kind size.n size.depth.0 b.now }
{
    check(b, kind, size).is_ok()
}

// Whether an expression is in order for its kind over a tree; where it is not, its place for 6 with `plus` added.
fn first_fault(g: &Grown, kind: Kind, plus: usize, b: &[u8]) -> Answer
    requires { plus ≤ second }
    ensures { Decides (in_order kind g.now.tree plus b.now ∷ []) (λ k. k ≡ 0) result }
{
    match check(b, kind, g.size()) {
        Ok(()) => Answer::of(answer::DONE),
        Err(Wrong(k)) => Answer::at(answer::EXPRESSION_WRONG, plus + k),
    }
}

// Both expressions of a request: the first is judged whole before the second is looked at. (A test and no `?`: a grant is an answer too.)
pub fn both_in_order(g: &Grown, kind: Kind, x: &[u8], y: &[u8]) -> Answer
    ensures { Decides (expression_conditions kind g.now.tree x.now y.now) (λ k. k ≡ 0) result }
{
    let first = first_fault(g, kind, 0, x);
    if !first.granted() {
        return first;
    }
    first_fault(g, kind, SECOND, y)
}

// Whether a held set meets a mutable part. (A `match`: the two differ in what length 0 means.)
fn meets_part(g: &Grown, part: Mutable, held: SecuronSet, b: &[u8]) -> bool
    requires { Right Protection g.now.tree.n g.now.levels.depth.0 b.now }
    ensures { (result ≡ true) ↔ MeetsPart part g.now.tree (marked held.has) b.now }
{
    match part {
        Mutable::T1 => expression::meets_t1(g, held, b),
        Mutable::T2 => expression::meets_t2(g, held, b),
    }
}

// Whether a held set meets a mutable part, for any bytes whatever.
pub fn judge(t: Tree, part: Mutable, held: SecuronSet, b: &[u8]) -> Result<bool, Wrong>
    requires { IsTree t }
    ensures { Judges t part (marked held.has) b.now result }
{
    let g = t.grow();
    check(b, Kind::Protection, g.size())?;
    Ok(meets_part(&g, part, held, b))
}

// SET of a privilege, for any bytes whatever.
pub fn name_set(t: Tree, b: &[u8]) -> Result<SecuronSet, Wrong>
    requires { IsTree t }
    ensures { NamesSET t b.now result }
{
    let g = t.grow();
    check(b, Kind::Privilege, g.size())?;
    Ok(expression::set_of(&g, b))
}
