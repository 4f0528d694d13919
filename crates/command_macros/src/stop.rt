// Why nothing is made of a value.
use site_base::OutOfMemory;
use std::alloc::AllocFailed;

/// Why nothing is made of a value: a macro in it is missing, or there is no memory.
#[derive(Drop)]
pub(crate) enum Stop<'a> {
    Missing(&'a str),
    Memory,
}

impl<'a> From<OutOfMemory> for Stop<'a> {
    ghost use Rattle.std.specs.Prelude.{◌≡◌};
    ghost use Rattle.command_macros.specs.declared.stop.Stop.TheVariants.{Memory};

    ghost from_gives = { λ _ e. e ≡ Memory };

    fn from(_: OutOfMemory) -> Stop<'a> {
        Stop::Memory
    }
}

impl<'a, T: Drop> From<AllocFailed<T>> for Stop<'a> {
    ghost use Rattle.std.specs.Prelude.{◌≡◌};
    ghost use Rattle.command_macros.specs.declared.stop.Stop.TheVariants.{Memory};

    ghost from_gives = { λ _ e. e ≡ Memory };

    fn from(_: AllocFailed<T>) -> Stop<'a> {
        Stop::Memory
    }
}
