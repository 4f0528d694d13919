// The lines of diagnostics.
ghost use Rattle.std.specs.Prelude.{◌≡◌, ◌++◌, ◌<◌, length, IfOk, OnOk};
ghost use Rattle.site_text.specs.Diags.{diag_line, kind_text, detail_text};

use site_base::{Diag, DiagKind, OutOfMemory, Text, Texts};
use std::alloc::Global;

/// The line of a diagnostic: the file, line and column of its place, its kind and, if there is
/// one, its detail, with a newline. The place's file is its index in `files`.
pub fn print_diag(alloc: Global, diag: &Diag, files: &Texts) -> Result<Text, OutOfMemory>
    requires { diag.now.place.file < length files.now }
    ensures { IfOk result (λ t. t ≡ diag_line files.now diag.now) }
{
    let mut out = files.as_slice()[diag.place.file as usize].clone()?;
    out.push(':')?;
    out.push_decimal(u64::from(diag.place.line))?;
    out.push(':')?;
    out.push_decimal(u64::from(diag.place.col))?;
    out.push_str(": ")?;
    out.push_str(kind_name(diag.kind))?;
    push_detail(&mut out, diag.text.as_str())?;
    out.push('\n')?;
    Ok(out)
}

/// Adds a blank and the detail, if there is one.
fn push_detail(out: &mut Text, detail: &str) -> Result<(), OutOfMemory>
    ensures { OnOk result (out.new ≡ out.old ++ detail_text detail.now) }
{
    if detail.is_empty() {
        return Ok(());
    }
    out.push(' ')?;
    out.push_str(detail)
}

fn kind_name(kind: DiagKind) -> &'static str
    ensures { result.now ≡ kind_text kind }
{
    match kind {
        DiagKind::NoFile => "NoFile",
        DiagKind::FileTooLong => "FileTooLong",
        DiagKind::IncludeDepth => "IncludeDepth",
        DiagKind::TooManyFiles => "TooManyFiles",
        DiagKind::Lexical => "Lexical",
        DiagKind::Syntax => "Syntax",
        DiagKind::TooDeep => "TooDeep",
        DiagKind::WrongType => "WrongType",
        DiagKind::Overflow => "Overflow",
        DiagKind::DivZero => "DivZero",
        DiagKind::Arity => "Arity",
        DiagKind::FrozenWrite => "FrozenWrite",
        DiagKind::ConstSet => "ConstSet",
        DiagKind::NotHere => "NotHere",
        DiagKind::NoAssign => "NoAssign",
        DiagKind::StepLimit => "StepLimit",
        DiagKind::SpaceLimit => "SpaceLimit",
        DiagKind::DepthLimit => "DepthLimit",
        DiagKind::Undefined => "Undefined",
        DiagKind::NoTemplate => "NoTemplate",
        DiagKind::BadTarget => "BadTarget",
        DiagKind::UnknownType => "UnknownType",
        DiagKind::BadName => "BadName",
        DiagKind::Thrown => "Thrown",
        DiagKind::Cyclic => "Cyclic",
        DiagKind::FunctionValue => "FunctionValue",
        DiagKind::UnknownAttr => "UnknownAttr",
        DiagKind::AttrType => "AttrType",
        DiagKind::MissingAttr => "MissingAttr",
        DiagKind::BadRange => "BadRange",
        DiagKind::ItemLimit => "ItemLimit",
        DiagKind::Duplicate => "Duplicate",
        DiagKind::NoReference => "NoReference",
        DiagKind::DependencyCycle => "DependencyCycle",
        DiagKind::BadConst => "BadConst",
        DiagKind::BadZone => "BadZone",
        DiagKind::BadScript => "BadScript",
        DiagKind::BadQuery => "BadQuery",
        DiagKind::BadState => "BadState",
    }
}
