//! What a seat at the word knows.

/// A whole has two parts and the counts of both halves. A half has one part, and its count twice. No value of it is made.
pub struct View {
    /// How many halves it is.
    pub parts: u64,
    /// The count of one half.
    pub left: u64,
    /// The count of the other.
    pub right: u64,
}
