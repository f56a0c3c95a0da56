// What the program prints on.

/// What a run prints on.
#[derive(Drop)]
pub struct Sinks<W, E> {
    /// Takes its answer.
    pub output: W,
    /// Takes hints on it, and errors.
    pub errors: E,
}
