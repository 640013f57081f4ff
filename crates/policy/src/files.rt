// A file is a shelf with protection expressions at T1 and T2, and privilege expressions at E and G.
ghost use Rattle.policy.specs.Fine.{file_shelves};

use crate::{FILE_BYTES, FILE_PLACES, File, Row};
use tree::TreeSize;

impl File {
    // A file that is not there: zero.
    pub const ZERO: File = File {
        lens: [0; FILE_PLACES],
        bytes: [0; FILE_BYTES],
    };
}

impl Row for File {
    ghost shelves = { file_shelves };

    fn stored(&self, k: usize) -> &[u8] {
        shelf::stored(&self.lens, &self.bytes, k)
    }

    fn put(&mut self, k: usize, x: &[u8]) {
        shelf::put(&mut self.lens, &mut self.bytes, k, x);
    }

    fn is_used_or_zero(&self, used: bool, size: TreeSize) -> bool {
        shelf::used_or_zero(used, true, size, &self.lens, &self.bytes)
    }
}
