// Securons, levels, and sets of securons (01, "The tree"; 002, 2.1).
#![tactic(auto)]

ghost use Rattle.std.specs.Prelude.{◌≡◌, true, ◌↔◌, ◌+◌, ◌<◌};
ghost use Rattle.securon.specs.Sets.{set_room, empty, only, ◌∪◌, ◌⊆◌, ◌≐◌, Apart, marked};

// The room of a set: the numbers that a securon can have are those below.
pub const ROOM: usize = 64;

// A securon, by its number.
#[derive(Clone, Copy, Debug, PartialEq, Eq, PartialOrd, Ord)]
pub struct Securon(pub u8);

// A level, d(s) in 002: kept apart from securons, so that neither is taken for the other.
#[derive(Clone, Copy, Debug, PartialEq, Eq, PartialOrd, Ord)]
pub struct Level(pub u8);

impl Securon {
    pub const ROOT: Securon = Securon(0);
}

impl Level {
    // The level of a child.
    pub fn next(self) -> Level
        requires { self.0 < set_room }
        ensures { result.0 ≡ self.0 + 1 }
    {
        Level(self.0 + 1)
    }
}

// A set of securons: a mark for each that is in it.
#[derive(Clone, Copy)]
pub struct SecuronSet {
    pub has: [bool; ROOM],
}

impl SecuronSet {
    pub const EMPTY: SecuronSet = SecuronSet { has: [false; ROOM] };

    // The set with no member.
    pub fn empty() -> SecuronSet
        ensures { marked result.has ≐ empty }
    {
        SecuronSet::EMPTY
    }

    // Whether s is a member.
    pub fn holds(self, s: Securon) -> bool
        requires { s.0 < set_room }
        ensures { (result ≡ true) ↔ marked self.has s.0 }
    {
        let at = s.0 as usize;
        self.has[at]
    }

    // The set with s added.
    pub fn with(self, s: Securon) -> SecuronSet
        requires { s.0 < set_room }
        ensures { marked result.has ≐ marked self.has ∪ only s.0 }
    {
        let mut r = self;
        let at = s.0 as usize;
        r.has[at] = true;
        r
    }

    // Both sets' members.
    pub fn union(self, more: SecuronSet) -> SecuronSet
        ensures { marked result.has ≐ marked self.has ∪ marked more.has }
    {
        let mut r = self;
        for (k, mark) in r.has.iter_mut().enumerate() {
            *mark |= more.has[k];
        }
        r
    }

    // Whether every member of self is one of `whole`. A flag and no early return, so that the loop can be vectorised.
    pub fn part(self, whole: SecuronSet) -> bool
        ensures { (result ≡ true) ↔ (marked self.has ⊆ marked whole.has) }
    {
        let pairs = self.has.iter().zip(&whole.has);
        pairs.fold(true, |ok, (here, there)| ok & (!*here | *there))
    }

    // Whether the two share no member. As in `part`, a flag and no early return.
    pub fn apart(self, other: SecuronSet) -> bool
        ensures { (result ≡ true) ↔ Apart (marked self.has) (marked other.has) }
    {
        let pairs = self.has.iter().zip(&other.has);
        pairs.fold(true, |none, (here, there)| none & !(*here & *there))
    }
}
