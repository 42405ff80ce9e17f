//! The size of an operation.

/// The most sides of all rings of an operation's inputs.
pub const MAX_SEGMENTS: usize = 65_536;

const _: () = prove!(MAX_SEGMENTS == 65_536);
