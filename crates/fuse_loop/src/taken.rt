// What comes next from a source.

/// What came next.
#[derive(Clone, Copy, Debug)]
pub enum Taken {
    /// A message, of so many bytes in front of the buffer.
    Message(usize),
    /// Nothing, since none is left.
    Gone,
    /// Nothing, since the source failed.
    Failed,
}
