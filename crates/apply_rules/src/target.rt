// The targets of rules.
ghost use Rattle.std.specs.Prelude.{◌≡◌, IfOk};
ghost use Rattle.eval_work.specs.Kept.{HasGlobals};
ghost use Rattle.commit_meaning.specs.Names.{target_no as number_of_target, target_number, target_names};
ghost use Rattle.rule_expressions.specs.Seen.{names_of};
ghost use Rattle.apply_rules.specs.Plain.{plain_target};
ghost use Rattle.apply_rules.specs.Preparations.{IsPreparedTarget};

use dsl_value::Store;
use rule_expressions::{Prepared, Subject, prepare};
use site_base::{ItemNo, OutOfMemory, TargetNo};
use site_model::Object;
use std::alloc::Global;

/// What a rule is applied to: a host, or a service with its host.
#[derive(Clone, Copy)]
pub enum Target<'a> {
    Host(&'a Object),
    Service {
        host: &'a Object,
        service: &'a Object,
    },
}

/// A target with the values that its names have in the expressions of all rules, made once.
#[derive(Drop)]
pub struct PreparedTarget<'a> {
    pub(crate) target: Target<'a>,
    pub(crate) prepared: Prepared<'a>,
}

impl<'a> PreparedTarget<'a> {
    /// Prepares a target for rules over views of this store, whose globals are a dictionary in its first cell.
    pub fn new(
        alloc: Global,
        store: &Store,
        target: Target<'a>,
    ) -> Result<PreparedTarget<'a>, OutOfMemory>
        requires { HasGlobals store.now }
        ensures prepared { IfOk result (IsPreparedTarget store.now) }
        ensures target { IfOk result (λ t. t.target ≡ target.entry) }
    {
        let prepared = prepare(alloc, store, subject_of(&target))?;
        Ok(PreparedTarget { target, prepared })
    }
}

/// What expressions see of a target.
pub(crate) fn subject_of<'a>(target: &Target<'a>) -> Subject<'a>
    ensures { names_of result ≡ target_names (plain_target target.now) }
{
    match target {
        Target::Host(host) => Subject::Host(&host.tree),
        Target::Service { host, service } => Subject::Service {
            host: &host.tree,
            service: &service.tree,
        },
    }
}

/// The number of a target, as numbers of instances have it.
pub(crate) fn target_no(target: &Target) -> TargetNo
    ensures { result ≡ number_of_target (target_number (plain_target target.now)) }
{
    match target {
        Target::Host(host) => number_in(host.number),
        Target::Service { service, .. } => number_in(service.number),
    }
}

fn number_in(number: ItemNo) -> TargetNo
    ensures { result ≡ number_of_target number }
{
    TargetNo {
        item: number.item,
        host: number.target.item,
        key: number.key,
    }
}
