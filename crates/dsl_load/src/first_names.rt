// The names that are there before the first file is run.
ghost use Rattle.std.specs.Prelude.{◌≡◌, ◌++◌, [], ◌∷◌, IfOk, OnOk, map};
ghost use Rattle.dsl_value.specs.Pairs.{dict_of};
ghost use Rattle.eval_meaning.specs.Load.{first_constants as constants_first, folders, states_and_kinds, own_name, constant_that};
ghost use Rattle.dsl_load.specs.Starts.{texts_view};

use dsl_value::Value;
use eval_work::Locals;
use site_base::{OutOfMemory, Text};
use std::alloc::Global;

/// The states and the kinds of notifications (Icinga 2 documentation, Language Reference, Constants): strings of their own names.
const STATES_AND_KINDS: [&str; 15] = [
    "OK",
    "Warning",
    "Critical",
    "Unknown",
    "Up",
    "Down",
    "Problem",
    "Recovery",
    "Acknowledgement",
    "Custom",
    "DowntimeStart",
    "DowntimeEnd",
    "DowntimeRemoved",
    "FlappingStart",
    "FlappingEnd",
];

/// The names of folders, which a site can replace.
const FOLDER_NAMES: [&str; 2] = ["ConfigDir", "LogDir"];

/// The constants, each with whether it can be replaced.
pub(crate) fn first_constants(alloc: Global) -> Result<Locals, OutOfMemory>
    ensures { IfOk result (λ l. l ≡ constants_first) }
{
    let mut constants = Locals::new(alloc);
    put_constants(alloc, &mut constants, &STATES_AND_KINDS, false)?;
    put_constants(alloc, &mut constants, &FOLDER_NAMES, true)?;
    Ok(constants)
}

fn put_constants(
    alloc: Global,
    constants: &mut Locals,
    names: &[&str],
    can_be_replaced: bool,
) -> Result<(), OutOfMemory>
    ensures { OnOk result (constants.new ≡ dict_of (map (constant_that can_be_replaced) (texts_view names.now)) constants.old) }
{
    for name in names {
        constants.put(&Text::copy_of(alloc, name)?, Value::Bool(can_be_replaced))?;
    }
    Ok(())
}

/// The globals that are strings.
pub(crate) fn first_strings(alloc: Global) -> Result<Vec<(Text, Value)>, OutOfMemory>
    ensures { IfOk result (λ v. v.items ≡ folders ++ map own_name states_and_kinds) }
{
    let mut strings = Vec::new(alloc);
    push_string(alloc, &mut strings, "ConfigDir", "/etc/icinga2")?;
    push_string(alloc, &mut strings, "LogDir", "/var/log/icinga2")?;
    push_own_names(alloc, &mut strings, &STATES_AND_KINDS)?;
    Ok(strings)
}

fn push_own_names(
    alloc: Global,
    strings: &mut Vec<(Text, Value)>,
    names: &[&str],
) -> Result<(), OutOfMemory>
    ensures { OnOk result (strings.new.items ≡ strings.old.items ++ map own_name (texts_view names.now)) }
{
    for name in names {
        push_string(alloc, strings, name, name)?;
    }
    Ok(())
}

fn push_string(
    alloc: Global,
    strings: &mut Vec<(Text, Value)>,
    name: &str,
    text: &str,
) -> Result<(), OutOfMemory>
    ensures { OnOk result (strings.new.items ≡ strings.old.items ++ (name.now, Value.Str text.now) ∷ []) }
{
    let name = Text::copy_of(alloc, name)?;
    let text = Text::copy_of(alloc, text)?;
    Ok(strings.push((name, Value::Str(text)))?)
}
