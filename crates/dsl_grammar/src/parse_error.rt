// Why tokens have no tree.
use site_base::{OutOfMemory, Place};
use thiserror::Error;

/// Why [`parse`](crate::parse) gives no tree.
#[derive(Clone, Copy, Debug, PartialEq, Eq, Error)]
pub enum ParseError {
    /// The tokens before this place begin a file, and with the token there they begin none.
    #[error("no file goes on with this token")]
    SyntaxFault { place: Place },
    /// Through the token at this place more than 100 brackets are open, or more than 200 tokens weigh on it.
    #[error("this token stands too deep")]
    TooDeep { place: Place },
    #[error("out of memory")]
    OutOfMemory,
}

impl From<OutOfMemory> for ParseError {
    ghost use Rattle.std.specs.Prelude.{◌≡◌};
    ghost use Rattle.dsl_grammar.specs.declared.parse_error.ParseError.TheVariants.{OutOfMemory as NoMemory};

    ghost from_gives = { λ _ e. e ≡ NoMemory };

    fn from(_: OutOfMemory) -> ParseError {
        ParseError::OutOfMemory
    }
}
