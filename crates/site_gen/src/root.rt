// The one file of the generated site.
ghost use Rattle.std.specs.Prelude.{◌≡◌, ◌++◌, IfOk, OnOk};
ghost use Rattle.site_gen.specs.Root.{commands_text, host_line, host_name, parent_text, root_text as text_of, rules_text};

use site_base::{OutOfMemory, Text};
use std::alloc::Global;

/// The text of the one file of a site of so many hosts. Each host depends on the one of half its number, so that they are a tree, and has
/// a service, whose notification tells one user.
///
/// # Errors
///
/// `OutOfMemory` if there is none for it.
pub fn root_text(alloc: Global, hosts: u32) -> Result<Text, OutOfMemory>
    ensures { IfOk result (λ t. t ≡ text_of hosts) }
{
    let mut text = Text::new(alloc);
    push_commands(&mut text)?;
    for host in 0..hosts {
        push_host(&mut text, host)?;
    }
    push_rules(&mut text)?;
    Ok(text)
}

/// Adds the commands, and the user that is told.
fn push_commands(text: &mut Text) -> Result<(), OutOfMemory>
    ensures { OnOk result (text.new ≡ text.old ++ commands_text) }
{
    text.push_str("object CheckCommand \"c\" { command = [ \"true\" ] }\n")?;
    text.push_str("object NotificationCommand \"n\" { command = [ \"true\" ] }\n")?;
    text.push_str("object User \"u\" { }\n")
}

/// Adds the line of a host.
fn push_host(text: &mut Text, host: u32) -> Result<(), OutOfMemory>
    ensures { OnOk result (text.new ≡ text.old ++ host_line host) }
{
    text.push_str("object Host \"")?;
    push_name(text, host)?;
    text.push_str("\" { check_command = \"c\"; max_check_attempts = 2")?;
    push_parent(text, host)?;
    text.push_str(" }\n")
}

/// Adds the variable that names the host on which this one depends.
fn push_parent(text: &mut Text, host: u32) -> Result<(), OutOfMemory>
    ensures { OnOk result (text.new ≡ text.old ++ parent_text host) }
{
    if host == 0 {
        return Ok(());
    }
    text.push_str("; vars.p = \"")?;
    push_name(text, host / 2)?;
    text.push_str("\"")
}

/// Adds the name of a host.
pub(crate) fn push_name(text: &mut Text, host: u32) -> Result<(), OutOfMemory>
    ensures { OnOk result (text.new ≡ text.old ++ host_name host) }
{
    text.push_str("h")?;
    text.push_decimal(u64::from(host))
}

/// Adds the rules that make the services, the dependencies and the notifications.
fn push_rules(text: &mut Text) -> Result<(), OutOfMemory>
    ensures { OnOk result (text.new ≡ text.old ++ rules_text) }
{
    text.push_str("apply Service \"s\" { check_command = \"c\"; assign where true }\n")?;
    text.push_str(
        "apply Dependency \"d\" to Host { parent_host_name = host.vars.p; assign where host.vars.p }\n",
    )?;
    text.push_str(
        "apply Notification \"m\" to Service { command = \"n\"; users = [ \"u\" ]; assign where true }\n",
    )?;
    Ok(())
}
