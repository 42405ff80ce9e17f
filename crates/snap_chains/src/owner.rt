//! Owners of edges.

/// One of the two inputs of an operation.
#[derive(Clone, Copy, Debug, PartialEq, Eq, PartialOrd, Ord)]
pub enum Input {
    First,
    Second,
}

/// A shape of an input. Owners are in the order of their inputs, then of their numbers.
#[derive(Clone, Copy, Debug, PartialEq, Eq, PartialOrd, Ord)]
pub struct Owner {
    /// The input that the shape is of.
    pub input: Input,
    /// The number of the shape in its input.
    pub shape: u32,
}
