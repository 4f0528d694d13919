// Why a command has no words.
use site_base::{OutOfMemory, Text};
use thiserror::Error;

/// Why [`resolve`](crate::resolve) gives no words.
#[derive(Debug, Drop, PartialEq, Eq, Error)]
pub enum MacroError {
    /// The first macro that is missing and drops no argument, by its name between the dollar signs.
    #[error("the macro {name:?} is missing")]
    MissingMacro { name: Text },
    #[error("out of memory")]
    OutOfMemory,
}

impl From<OutOfMemory> for MacroError {
    ghost use Rattle.std.specs.Prelude.{◌≡◌};
    ghost use Rattle.command_macros.specs.declared.macro_error.MacroError.TheVariants.{OutOfMemory as NoMemory};

    ghost from_gives = { λ _ e. e ≡ NoMemory };

    fn from(_: OutOfMemory) -> MacroError {
        MacroError::OutOfMemory
    }
}
