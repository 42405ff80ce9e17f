//! Operations on two inputs.
ghost use Rattle.std.specs.Prelude.{◌≡◌};
ghost use Rattle.face_rows.specs.Operations.{answer};

/// What is asked of a place, by whether the first and the second input hold there.
#[derive(Clone, Copy, Debug, PartialEq, Eq)]
pub enum Op {
    /// Both hold.
    And,
    /// At least one holds.
    Or,
    /// The first holds, the second doesn't.
    Not,
    /// Exactly one holds.
    Xor,
}

impl Op {
    /// Returns the operation's answer where the inputs hold as given.
    pub fn answer(self, first: bool, second: bool) -> bool
        ensures { result ≡ answer self first second }
    {
        match self {
            Op::And => first && second,
            Op::Or => first || second,
            Op::Not => first && !second,
            Op::Xor => first != second,
        }
    }
}
