// Checkables, dependencies, notifications and users.
use crate::filters::{push_filters, push_states};
use crate::given::is_before;
use crate::words::{push_bar, push_flag, push_limit, push_number, push_place};
use site_base::{OutOfMemory, Text, Tree, push_quoted};
use site_model::{CheckSpec, DependSpec, NotifySpec, UserSpec};

/// Adds the hosts and services that a row writes itself.
pub(crate) fn push_checkables(out: &mut Text, specs: &[CheckSpec]) -> Result<(), OutOfMemory> {
    for spec in specs {
        if !is_before(spec.name.as_str()) {
            push_bar(out)?;
            push_checkable(out, spec)?;
        }
    }
    Ok(())
}

fn push_checkable(out: &mut Text, spec: &CheckSpec) -> Result<(), OutOfMemory> {
    out.push_str(spec.name.as_str())?;
    push_place(out, " host ", spec.host)?;
    push_place(out, " command ", Some(spec.command))?;
    push_number(out, " max ", u64::from(spec.max))?;
    push_number(out, " every ", spec.check_secs)?;
    push_number(out, " retry ", spec.retry_secs)?;
    push_place(out, " period ", spec.period)?;
    push_flag(out, " active", spec.active)?;
    push_flag(out, " passive", spec.passive)?;
    push_flag(out, " notify", spec.notify)?;
    push_flag(out, " volatile", spec.volatile)?;
    push_flag(out, " flapping", spec.flapping)?;
    push_number(out, " low ", spec.low)?;
    push_number(out, " high ", spec.high)?;
    push_limit(out, " attributes ", size_of(&spec.tree))
}

/// How many pairs a dictionary has.
pub(crate) fn size_of(tree: &Tree) -> Option<u64> {
    match tree {
        Tree::Dict(pairs) => Some(pairs.len() as u64),
        _ => None,
    }
}

/// Adds dependencies.
pub(crate) fn push_depends(out: &mut Text, specs: &[DependSpec]) -> Result<(), OutOfMemory> {
    for spec in specs {
        push_bar(out)?;
        push_depend(out, spec)?;
    }
    Ok(())
}

fn push_depend(out: &mut Text, spec: &DependSpec) -> Result<(), OutOfMemory> {
    out.push_str(spec.name.as_str())?;
    push_place(out, " child ", Some(spec.child))?;
    push_place(out, " parent ", Some(spec.parent))?;
    if let Some(group) = &spec.group {
        out.push_str(" group ")?;
        push_quoted(out, group.as_str())?;
    }
    push_flag(out, " checks", spec.checks)?;
    push_flag(out, " notes", spec.notes)?;
    push_flag(out, " ignore_soft", spec.ignore_soft)?;
    push_states(out, &spec.states)?;
    push_place(out, " period ", spec.period)
}

/// Adds notifications.
pub(crate) fn push_notifies(out: &mut Text, specs: &[NotifySpec]) -> Result<(), OutOfMemory> {
    for spec in specs {
        push_bar(out)?;
        push_notify(out, spec)?;
    }
    Ok(())
}

fn push_notify(out: &mut Text, spec: &NotifySpec) -> Result<(), OutOfMemory> {
    out.push_str(spec.name.as_str())?;
    push_place(out, " checkable ", Some(spec.checkable))?;
    out.push_str(" users")?;
    push_places(out, spec.users.as_slice())?;
    push_number(out, " interval ", spec.interval)?;
    push_limit(out, " begin ", spec.begin)?;
    push_limit(out, " end ", spec.end)?;
    push_filters(out, &spec.kinds, &spec.states)?;
    push_place(out, " period ", spec.period)
}

/// Adds the places of several users, a comma between.
fn push_places(out: &mut Text, users: &[u32]) -> Result<(), OutOfMemory> {
    let mut before = " ";
    for user in users {
        push_number(out, before, u64::from(*user))?;
        before = ",";
    }
    Ok(())
}

/// Adds users.
pub(crate) fn push_users(out: &mut Text, specs: &[UserSpec]) -> Result<(), OutOfMemory> {
    for spec in specs {
        push_bar(out)?;
        push_user(out, spec)?;
    }
    Ok(())
}

fn push_user(out: &mut Text, spec: &UserSpec) -> Result<(), OutOfMemory> {
    out.push_str(spec.name.as_str())?;
    push_flag(out, " enabled", spec.enabled)?;
    push_place(out, " period ", spec.period)?;
    push_filters(out, &spec.kinds, &spec.states)
}
