// The schema of objects.
use object_types::{ObjectType, Unset, ValueKind};
use site_base::{OutOfMemory, Text};

/// Adds what the schema says of an attribute: a type and a name.
pub(crate) fn push_row(out: &mut Text, text: &str) -> Result<(), OutOfMemory> {
    let (kind, name) = text.split_once(' ').unwrap_or((text, ""));
    let Some(kind) = ObjectType::of_name(kind) else {
        return out.push_str("no type");
    };
    let Some(row) = kind.row(name) else {
        return out.push_str("none");
    };
    push_kind(out, row.kind)?;
    push_unset(out, row.unset)?;
    if row.kind.refers() {
        out.push_str(", refers")?;
    }
    if row.attribute.name() != name {
        out.push_str(", another attribute")?;
    }
    Ok(())
}

/// Adds what a value has to be.
fn push_kind(out: &mut Text, kind: ValueKind) -> Result<(), OutOfMemory> {
    out.push_str(word_of(kind))?;
    match kind {
        ValueKind::Name(of) | ValueKind::Names(of) => push_of(out, of.name()),
        ValueKind::Service(of) => push_of(out, of.name()),
        _ => Ok(()),
    }
}

/// Adds of what a value is the name.
fn push_of(out: &mut Text, of: &str) -> Result<(), OutOfMemory> {
    out.push('(')?;
    out.push_str(of)?;
    out.push(')')
}

fn word_of(kind: ValueKind) -> &'static str {
    match kind {
        ValueKind::Text => "Text",
        ValueKind::Bool => "Bool",
        ValueKind::Count => "Count",
        ValueKind::PositiveSeconds => "PositiveSeconds",
        ValueKind::Seconds => "Seconds",
        ValueKind::Dict => "Dict",
        ValueKind::Command => "Command",
        ValueKind::Times => "Times",
        ValueKind::States => "States",
        ValueKind::NoteKinds => "NoteKinds",
        ValueKind::Ranges => "Ranges",
        ValueKind::Name(_) => "Name",
        ValueKind::Service(_) => "Service",
        ValueKind::Names(_) => "Names",
    }
}

/// Adds what holds where an attribute isn't set.
fn push_unset(out: &mut Text, unset: Unset) -> Result<(), OutOfMemory> {
    match unset {
        Unset::Missing => out.push_str(", Missing"),
        Unset::Nothing => out.push_str(", Nothing"),
        Unset::Bool(true) => out.push_str(", Bool(true)"),
        Unset::Bool(false) => out.push_str(", Bool(false)"),
        Unset::GoodStates => out.push_str(", GoodStates"),
        Unset::Number(number) => {
            out.push_str(", Number(")?;
            out.push_decimal(u64::from(number))?;
            out.push(')')
        }
    }
}

/// Adds what there is to say of a type.
pub(crate) fn push_type(out: &mut Text, text: &str) -> Result<(), OutOfMemory> {
    let Some(kind) = ObjectType::of_name(text) else {
        return out.push_str("none");
    };
    out.push_str(kind.name())?;
    if kind.is_inert() {
        out.push_str(", inert")?;
    }
    out.push_str(", wave ")?;
    out.push_decimal(u64::from(kind.wave()))?;
    out.push_str(", needs")?;
    for row in kind.schema() {
        if row.unset.is_fault() {
            out.push(' ')?;
            out.push_str(row.attribute.name())?;
        }
    }
    Ok(())
}
