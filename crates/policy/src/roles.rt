// A role is a shelf of privilege expressions.
ghost use Rattle.policy.specs.Fine.{role_shelves};

use crate::{ROLE_BYTES, ROLE_PLACES, Role, Row};
use tree::TreeSize;

impl Role {
    // A role that is not there: zero.
    pub const ZERO: Role = Role {
        lens: [0; ROLE_PLACES],
        bytes: [0; ROLE_BYTES],
    };
}

impl Row for Role {
    ghost shelves = { role_shelves };

    fn stored(&self, k: usize) -> &[u8] {
        shelf::stored(&self.lens, &self.bytes, k)
    }

    fn put(&mut self, k: usize, x: &[u8]) {
        shelf::put(&mut self.lens, &mut self.bytes, k, x);
    }

    fn is_used_or_zero(&self, used: bool, size: TreeSize) -> bool {
        shelf::used_or_zero(used, false, size, &self.lens, &self.bytes)
    }
}
