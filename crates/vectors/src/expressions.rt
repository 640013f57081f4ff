// Calls on expressions over the tree of 01's examples: n = 8, parents of 1 to 7: 0 0 1 1 2 2 0, so depth 2.
use crate::output::Told;
use answer::{Answer, EXPRESSION_WRONG};
use expression::Kind;
use order::{Mutable, Wrong};
use securon::{Level, ROOM, Securon, SecuronSet};
use tree::{Tree, TreeSize};

fn tree() -> Tree {
    let mut parent = [0u8; ROOM];
    parent[..8].copy_from_slice(b"\x00\x00\x00\x01\x01\x02\x02\x00");
    Tree { n: 8, parent }
}

fn refused(wrong: Wrong) -> Told {
    Told::Answer(Answer::at(EXPRESSION_WRONG, wrong.0))
}

// Whether bytes are in order: 0 0, or 6 and the place.
pub(crate) fn check(kind: Kind, b: &[u8]) -> Told {
    let size = TreeSize {
        n: 8,
        depth: Level(2),
    };
    match order::check(b, kind, size) {
        Ok(()) => Told::Answer(Answer::of(answer::DONE)),
        Err(wrong) => refused(wrong),
    }
}

// The set of these securons.
fn set_with(members: &[u8]) -> SecuronSet {
    let mut set = SecuronSet::EMPTY;
    for u in members {
        if *u < 64 {
            set = set.with(Securon(*u));
        }
    }
    set
}

// SET of a privilege: its members, or 6 and the place.
pub(crate) fn set_of(b: &[u8]) -> Option<Told> {
    let t = tree();
    if !t.grown() {
        return None;
    }
    Some(match order::name_set(t, b) {
        Ok(set) => Told::Members(set),
        Err(wrong) => refused(wrong),
    })
}

// Whether a held set meets a protection: met, not met, or 6 and the place.
pub(crate) fn meets(part: Mutable, held: &[u8], b: &[u8]) -> Option<Told> {
    let t = tree();
    if !t.grown() {
        return None;
    }
    Some(match order::judge(t, part, set_with(held), b) {
        Ok(met) => Told::Met(met),
        Err(wrong) => refused(wrong),
    })
}
