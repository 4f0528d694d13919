// Why a text has no tokens.
ghost use Rattle.std.specs.Prelude.{◌≡◌};

use site_base::{OutOfMemory, Place};
use std::alloc::{AllocError, AllocFailed};
use thiserror::Error;

/// Bytes that are no token.
#[derive(Clone, Copy, Debug, PartialEq, Eq)]
pub struct LexFault {
    /// Where they begin.
    pub place: Place,
}

/// Why [`lex`](crate::lex) gives no tokens.
#[derive(Clone, Copy, Debug, PartialEq, Eq, Error)]
pub enum LexError {
    /// The bytes at a place aren't UTF-8, or begin no token.
    #[error("no token begins here")]
    Fault(LexFault),
    #[error("out of memory")]
    OutOfMemory,
}

impl From<OutOfMemory> for LexError {
    ghost use Rattle.std.specs.Prelude.{◌≡◌};
    ghost use Rattle.dsl_lexer.specs.declared.lex_error.LexError.TheVariants.{OutOfMemory as NoMemory};

    ghost from_gives = { λ _ e. e ≡ NoMemory };

    fn from(_: OutOfMemory) -> LexError {
        LexError::OutOfMemory
    }
}

impl From<AllocError> for LexError {
    ghost use Rattle.std.specs.Prelude.{◌≡◌};
    ghost use Rattle.dsl_lexer.specs.declared.lex_error.LexError.TheVariants.{OutOfMemory as NoMemory};

    ghost from_gives = { λ _ e. e ≡ NoMemory };

    fn from(_: AllocError) -> LexError {
        LexError::OutOfMemory
    }
}

impl<T: Drop> From<AllocFailed<T>> for LexError {
    ghost use Rattle.std.specs.Prelude.{◌≡◌};
    ghost use Rattle.dsl_lexer.specs.declared.lex_error.LexError.TheVariants.{OutOfMemory as NoMemory};

    ghost from_gives = { λ _ e. e ≡ NoMemory };

    fn from(_: AllocFailed<T>) -> LexError {
        LexError::OutOfMemory
    }
}
