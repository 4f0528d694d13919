// Which command has a name.
ghost use Rattle.std.specs.Prelude.{◌≡◌};
ghost use Rattle.event_text.specs.Commands.{command_named as named, command_among as first_command};

use crate::Command;
use crate::command::COMMANDS;

/// The command of this name.
#[tactic(auto, unfolding(crate::specs::Commands::command_named))]
pub(crate) fn command_named(name: &str) -> Option<Command>
    ensures { result ≡ named name.now }
{
    command_among(&COMMANDS, name)
}

/// The first command of these that has this name.
fn command_among(commands: &[Command], name: &str) -> Option<Command>
    ensures { result ≡ first_command commands.now name.now }
{
    for command in commands {
        if name == command.name() {
            return Some(*command);
        }
    }
    None
}
