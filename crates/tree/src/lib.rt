// The tree of securons (01, "The tree").
#![tactic(auto)]

ghost use Rattle.std.specs.Prelude.{◌≡◌, true, ◌↔◌, ◌<◌};
ghost use Rattle.tree.specs.Tree.{Reaches, Related, Equal, Above, Below, Climbs, IsTree, LevelsOf, Ready};

use securon::{Level, ROOM, Securon};
use std::marker::Model;

// The most securons that a tree has.
pub const MOST: usize = 64;

// n securons; of each the parent's number. (An array with a count, here and for levels: memory is fixed, and C keeps the tree.)
#[repr(C)]
#[derive(Clone, Copy)]
pub struct Tree {
    pub n: usize,
    pub parent: [u8; ROOM],
}

// The level of each securon, and the depth.
#[derive(Clone, Copy)]
pub struct Levels {
    pub of: [Level; ROOM],
    pub depth: Level,
}

// How many securons a tree has, at least the root, and its depth: all that tells whether the bytes of an expression are in order.
#[derive(Clone, Copy)]
pub struct TreeSize {
    pub n: usize,
    pub depth: Level,
    ghost some: { 0 < n },
}

// A tree with its levels.
#[derive(Clone, Copy)]
pub struct Grown {
    pub tree: Tree,
    pub levels: Levels,
}

impl Model for Grown {
    ghost use Rattle.tree.specs.Grown.{Leveled};
    ghost use Rattle.tree.specs.Tree.{Ready};

    ghost Value = { Leveled };

    ghost view = { λ g. record { tree = g.tree; levels = g.levels } };

    ghost inverse = { λ v. record { tree = v.tree; levels = v.levels } };

    ghost invariant = { λ g. Ready g.tree g.levels };
}

// How a walk up parents ends: at the securon looked for; at the root; or past the one looked for, at a smaller number. (Found or root by `break` is the form
// that the walk is to have: docs/DECISIONS.md, "Forms that 01 names".)
#[derive(Clone, Copy)]
enum Walk {
    Found,
    Root,
    Missed,
}

// Whether walking up parents from `low` reaches `high`. Parents are smaller, so a walk that stands at a smaller number than `high` has missed it.
fn reaches(parent: &[u8; ROOM], low: Securon, high: Securon) -> bool
    requires { Climbs parent.now low.0 }
    ensures { (result ≡ true) ↔ Reaches parent.now low.0 high.0 }
{
    let target = high.0;
    let mut at = low.0;
    let end = loop {
        if at == target {
            break Walk::Found;
        }
        if at == Securon::ROOT.0 {
            break Walk::Root;
        }
        if at < target {
            break Walk::Missed;
        }
        at = parent[at as usize];
    };
    match end {
        Walk::Found => true,
        Walk::Root => false,
        Walk::Missed => false,
    }
}

// Whether u is equal to s. (By itself, since one of the three kinds of related is promised by it.)
fn equal(u: Securon, s: Securon) -> bool
    ensures { (result ≡ true) ↔ Equal u.0 s.0 }
{
    u == s
}

// Whether u is above s, an ancestor: walking up parents from s reaches it. What is above has a smaller number; s itself is not above s. (The numbers
// are compared: of a derived `<`, which is a call, the wrong version `above_takes_equal` could not turn the test.)
fn above(parent: &[u8; ROOM], u: Securon, s: Securon) -> bool
    requires { Climbs parent.now u.0 × Climbs parent.now s.0 }
    ensures { (result ≡ true) ↔ Above parent.now u.0 s.0 }
{
    u.0 < s.0 && reaches(parent, s, u)
}

// Whether u is below s, a descendant: s is above u.
fn below(parent: &[u8; ROOM], u: Securon, s: Securon) -> bool
    requires { Climbs parent.now u.0 × Climbs parent.now s.0 }
    ensures { (result ≡ true) ↔ Below parent.now u.0 s.0 }
{
    above(parent, s, u)
}

// Whether two securons are related: equal, or the one above or below the other (002, 2.3: "an ancestor, descendent, or is equal").
pub fn related(parent: &[u8; ROOM], a: Securon, b: Securon) -> bool
    requires { Climbs parent.now a.0 × Climbs parent.now b.0 }
    ensures { (result ≡ true) ↔ Related parent.now a.0 b.0 }
{
    if equal(a, b) {
        return true;
    }
    above(parent, a, b) || below(parent, a, b)
}

impl Tree {
    // Whether the count and the parents are a tree.
    pub fn grown(self) -> bool
        ensures { (result ≡ true) ↔ IsTree self }
    {
        let n = self.n;
        (1..=MOST).contains(&n) && (1..n).all(|u| usize::from(self.parent[u]) < u)
    }

    // The level of each securon and the depth, in one pass: parents are smaller, so a parent's level is there before its children's.
    // (By number: a level is written into the array that its parent's is read from.)
    pub fn levels(self) -> Levels
        requires { IsTree self }
        ensures { LevelsOf self result }
    {
        let n = self.n;
        let mut of = [Level(0); ROOM];
        let mut depth = Level(0);
        for u in 1..n {
            let up = self.parent[u];
            let upper = of[up as usize];
            let level = upper.next();
            of[u] = level;
            depth = depth.max(level);
        }
        Levels { of, depth }
    }

    // The tree with its levels.
    pub fn grow(self) -> Grown
        requires { IsTree self }
        ensures { result.tree ≡ self }
    {
        let levels = self.levels();
        Grown { tree: self, levels }
    }
}

impl Grown {
    // The tree's count of securons and its depth.
    pub fn size(&self) -> TreeSize
        ensures n { result.n ≡ self.now.tree.n }
        ensures depth { result.depth ≡ self.now.levels.depth }
        ensures ready { Ready self.now.tree self.now.levels }
    {
        TreeSize {
            n: self.tree.n,
            depth: self.levels.depth,
        }
    }
}
