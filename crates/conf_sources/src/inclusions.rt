// The inclusions of a file.
ghost use Rattle.std.specs.Prelude.{◌≡◌, ◌++◌, IfOk, OnOk};
ghost use Rattle.std.specs.Option.{option_to_list};
ghost use Rattle.dsl_syntax.specs.SyntaxView.{file_view, stmt_kind_view};
ghost use Rattle.conf_sources.specs.Inclusions.{inclusion_of, inclusions};

use crate::inclusion::Inclusion;
use dsl_syntax::{File, StmtKind};
use site_base::OutOfMemory;
use std::alloc::Global;

/// The inclusions of a file, in its order. They stand at its top level alone.
pub(crate) fn inclusions_in(alloc: Global, file: &File) -> Result<Vec<Inclusion>, OutOfMemory>
    ensures { IfOk result (λ v. v.items ≡ inclusions (file_view file.now)) }
{
    let mut all = Vec::new(alloc);
    let statements = file.statements.as_slice();
    for statement in statements {
        add_inclusion(&mut all, &statement.kind)?;
    }
    Ok(all)
}

/// Adds the inclusion that a statement is, if it is one.
fn add_inclusion(all: &mut Vec<Inclusion>, kind: &StmtKind) -> Result<(), OutOfMemory>
    ensures { OnOk result (all.new.items ≡ all.old.items ++ option_to_list (inclusion_of (stmt_kind_view kind.now))) }
{
    if let Some(inclusion) = inclusion(kind)? {
        all.push(inclusion)?;
    }
    Ok(())
}

/// The inclusion that a statement is, if it is one.
fn inclusion(kind: &StmtKind) -> Result<Option<Inclusion>, OutOfMemory>
    ensures { IfOk result (λ i. i ≡ inclusion_of (stmt_kind_view kind.now)) }
{
    match kind {
        StmtKind::Include { name, at } => Ok(Some(Inclusion::File {
            name: name.clone()?,
            at: *at,
        })),
        StmtKind::IncludeLib { name, at } => Ok(Some(Inclusion::Library {
            name: name.clone()?,
            at: *at,
        })),
        StmtKind::IncludeAll { dir, pattern, at } => Ok(Some(Inclusion::Folder {
            dir: dir.clone()?,
            pattern: pattern.clone()?,
            at: *at,
        })),
        _ => Ok(None),
    }
}
