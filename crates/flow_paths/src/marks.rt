//! What places do to a value.

/// What a point or an edge does to a value that a path carries.
#[derive(Clone, Copy, Debug, PartialEq, Eq)]
pub enum Mark {
    /// From here on the value is there.
    Write,
    /// From here on it isn't.
    Kill,
    /// It is there from here on exactly where it was before.
    Pass,
}
