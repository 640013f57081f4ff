// The bytes that a text makes.
ghost use Rattle.std.specs.Prelude.{◌≡◌, ◌<◌, ◌≤◌, [], take, MatchOption};
ghost use Rattle.text.specs.Kept.{Kept, Appends, Inserts};

use expression::LONGEST;

// How many bytes were made, and those bytes while they fit. (An array with a count, in fixed memory: the count goes on past it, since 18 goes before 19.)
#[derive(Clone, Copy)]
pub(crate) struct Made {
    pub(crate) count: usize,
    bytes: [u8; LONGEST],
}

impl Made {
    // No bytes yet.
    pub(crate) fn new() -> Made
        ensures { Kept result [] }
    {
        Made {
            count: 0,
            bytes: [0; LONGEST],
        }
    }

    // x after all bytes made.
    pub(crate) fn push(&mut self, x: u8)
        ensures { Appends self.old x self.new }
    {
        let n = self.count;
        self.count = n.saturating_add(1);
        if n < LONGEST {
            self.bytes[n] = x;
        }
    }

    // x before the bytes made from start on.
    pub(crate) fn insert(&mut self, start: usize, x: u8)
        ensures { Inserts self.old start x self.new }
    {
        let n = self.count;
        self.count = n.saturating_add(1);
        if start <= n && n < LONGEST {
            self.bytes.copy_within(start..n, start + 1);
            self.bytes[start] = x;
        }
    }

    // The bytes, where all of them fit.
    pub(crate) fn bytes(&self) -> Option<&[u8]>
        ensures { MatchOption result (LONGEST < self.now.count) (λ b. (self.now.count ≤ LONGEST) × (b.now ≡ take self.now.count self.now.bytes)) }
    {
        self.bytes.get(..self.count)
    }
}
