// What is kept of a line of input that goes on.
ghost use Rattle.std.specs.Prelude.{◌≤◌};

// The most bytes of a line that are kept: one more than a text may have.
pub const KEPT: usize = 513;

// The line that was begun: its first n bytes, or, of a longer one, as many as are kept.
#[derive(Drop)]
pub struct Begun {
    pub bytes: [u8; KEPT],
    pub n: usize,
    ghost within: { n ≤ 513 },
}
