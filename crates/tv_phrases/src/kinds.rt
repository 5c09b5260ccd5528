//! What a comma list is of, and what stands around it.

ghost use Rattle.std.specs.Prelude.{◌≡◌};
ghost use Rattle.tv_phrases.specs.Lists.{opening, closing};

/// What the items of a comma list are.
#[derive(Clone, Copy, Debug, PartialEq, Eq)]
pub enum Item {
    /// Words: letters, digits and `_` in any order.
    Word,
    /// Words that begin with a letter or `_` and are none of `E`, `A`, `TC`, `foreach` and `in`.
    Identifier,
}

/// The brackets around a list.
#[derive(Clone, Copy, Debug, PartialEq, Eq)]
pub enum Brackets {
    /// `(` and `)`.
    Round,
    /// `[` and `]`.
    Square,
    /// `{` and `}`.
    Curly,
}

impl Brackets {
    /// The bracket that opens.
    pub(crate) fn opening(self) -> &'static [u8]
        ensures { result.now ≡ opening self }
    {
        match self {
            Brackets::Round => b"(",
            Brackets::Square => b"[",
            Brackets::Curly => b"{",
        }
    }

    /// The bracket that closes.
    pub(crate) fn closing(self) -> &'static [u8]
        ensures { result.now ≡ closing self }
    {
        match self {
            Brackets::Round => b")",
            Brackets::Square => b"]",
            Brackets::Curly => b"}",
        }
    }
}
