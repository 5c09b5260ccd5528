//! Why a text means no program.

ghost use Rattle.std.specs.Prelude.{◌≡◌};
ghost use Rattle.tv_front.specs.declared.fault.ProgramFault.TheVariants.{Lexing, Parsing, Expansion};
ghost use Rattle.tv_front.specs.declared.fault.ProgramFault.TheVariants.{Resolution};

use thiserror::Error;
use tv_expand::ExpandError;
use tv_lex::LexError;
use tv_names::ResolveError;
use tv_phrases::SyntaxError;

/// Why a text means no program: the refusal of the first stage that refuses it, in the order of lexing,
/// parsing, expansion and resolution. Any of them may run out of memory.
#[derive(Clone, Copy, Debug, PartialEq, Eq, Error)]
pub enum ProgramFault {
    /// The bytes make no tokens.
    #[error("the bytes make no tokens: {0:?}")]
    Lexing(LexError),
    /// The tokens are those of no program, or over 200 constructs are open at one place.
    #[error("the tokens make no tree: {0:?}")]
    Parsing(SyntaxError),
    /// The tree has no flat form.
    #[error("{0}")]
    Expansion(ExpandError),
    /// The flat form has no meaning.
    #[error("{0}")]
    Resolution(ResolveError),
}

impl From<LexError> for ProgramFault {
    ghost from_gives = { λ e fault. fault ≡ Lexing e };

    fn from(e: LexError) -> ProgramFault {
        ProgramFault::Lexing(e)
    }
}

impl From<SyntaxError> for ProgramFault {
    ghost from_gives = { λ e fault. fault ≡ Parsing e };

    fn from(e: SyntaxError) -> ProgramFault {
        ProgramFault::Parsing(e)
    }
}

impl From<ExpandError> for ProgramFault {
    ghost from_gives = { λ e fault. fault ≡ Expansion e };

    fn from(e: ExpandError) -> ProgramFault {
        ProgramFault::Expansion(e)
    }
}

impl From<ResolveError> for ProgramFault {
    ghost from_gives = { λ e fault. fault ≡ Resolution e };

    fn from(e: ResolveError) -> ProgramFault {
        ProgramFault::Resolution(e)
    }
}
