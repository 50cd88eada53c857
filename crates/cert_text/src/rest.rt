//! What is left of a text.

ghost use Rattle.std.specs.Prelude.{◌+◌, ◌≤◌};

/// How many bytes of a text are read, and the number of its next line.
#[derive(Clone, Copy)]
pub struct Left {
    pub at: usize,
    pub number: u64,
    ghost counted: { number ≤ at + 1 },
}
