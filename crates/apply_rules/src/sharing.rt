// What the instances of many elements share of their target.
ghost use Rattle.std.specs.Prelude.{◌≡◌, IfOk, option_map};
ghost use Rattle.std.specs.Arc.{arc_value};
ghost use Rattle.dsl_value.specs.Contents.{Contents};
ghost use Rattle.eval_work.specs.Kept.{HasGlobals};
ghost use Rattle.commit_meaning.specs.Names.{target_names};
ghost use Rattle.rule_expressions.specs.Preparations.{IsPrepared};
ghost use Rattle.rule_expressions.specs.Seen.{names_of};
ghost use Rattle.apply_rules.specs.Plain.{plain_instance, plain_target};
ghost use Rattle.apply_rules.specs.Preparations.{IsPreparedTarget};
ghost use Rattle.apply_rules.specs.Sharing.{IsSharedIn, IsSharing};

use crate::instance::copy_pairs;
use crate::target::subject_of;
use crate::{Instance, PreparedTarget, Target};
use dsl_value::Store;
use rule_expressions::{Prepared, prepare};
use site_base::OutOfMemory;
use std::alloc::Global;
use std::sync::Arc;

/// From so many elements on, the instances of a rule at a target share the values of its names until the last of their items is made.
/// Those of fewer make them anew, so that not all targets have their values at a time.
const MANY: usize = 32;

/// A target, and the values of its names, if instances share them.
#[derive(Drop)]
pub(crate) struct Share<'a> {
    pub(crate) target: Target<'a>,
    pub(crate) values: Option<Arc<Prepared<'a>>>,
}

impl<'a> PreparedTarget<'a> {
    /// What the instances of so many elements share.
    pub(crate) fn share(&self, alloc: Global, elements: usize) -> Result<Share<'a>, OutOfMemory>
        ensures target { IfOk result (λ h. h.target ≡ self.now.target) }
        ensures values { (s : Contents) → IsPreparedTarget s self.now → IfOk result (λ h. IsSharing s h.target h.values) }
    {
        let values = self.values(alloc, elements)?;
        Ok(Share {
            target: self.target,
            values,
        })
    }

    /// The names of the target with their values, if these are many elements.
    fn values(
        &self,
        alloc: Global,
        elements: usize,
    ) -> Result<Option<Arc<Prepared<'a>>>, OutOfMemory>
        ensures { (s : Contents) → IsPreparedTarget s self.now → IfOk result (IsSharing s self.now.target) }
    {
        if elements < MANY {
            return Ok(None);
        }
        let mut values = fork_of(alloc, &self.prepared)?;
        values.store.lend();
        Ok(Some(Arc::new(alloc, values)?))
    }
}

impl<'a> Instance<'a> {
    /// The same instance, which shares these values.
    pub(crate) fn sharing(
        self,
        values: &Option<Arc<Prepared<'a>>>,
    ) -> Result<Instance<'a>, OutOfMemory>
        ensures item { IfOk result (λ i. plain_instance i ≡ plain_instance self.entry) }
        ensures target { IfOk result (λ i. i.target ≡ self.entry.target) }
        ensures shared { IfOk result (λ i. option_map arc_value i.shared ≡ option_map arc_value values.now) }
    {
        let mut instance = self;
        instance.shared = same_values(values)?;
        Ok(instance)
    }

    /// The names of the target with their values, in a fork of a store that has these behind the cells of this one. Values that are
    /// shared aren't made anew.
    pub fn prepared(&self, alloc: Global, store: &Store) -> Result<Prepared<'a>, OutOfMemory>
        requires globals { HasGlobals store.now }
        requires shared { IsSharedIn store.now self.now }
        ensures prepared { IfOk result (IsPrepared store.now) }
        ensures subject { IfOk result (λ p. names_of p.subject ≡ target_names (plain_target self.now.target)) }
    {
        match &self.shared {
            Some(values) => fork_of(alloc, values),
            None => prepare(alloc, store, subject_of(&self.target)),
        }
    }
}

/// The same values, if there are any.
fn same_values<'a>(
    values: &Option<Arc<Prepared<'a>>>,
) -> Result<Option<Arc<Prepared<'a>>>, OutOfMemory>
    ensures { IfOk result (λ o. option_map arc_value o ≡ option_map arc_value values.now) }
{
    match values {
        Some(values) => Ok(Some(values.clone()?)),
        None => Ok(None),
    }
}

/// The same names and values, in a fork of their store.
fn fork_of<'a>(alloc: Global, prepared: &Prepared<'a>) -> Result<Prepared<'a>, OutOfMemory>
    ensures prepared { (s : Contents) → IsPrepared s prepared.now → IfOk result (IsPrepared s) }
    ensures subject { IfOk result (λ p. p.subject ≡ prepared.now.subject) }
{
    Ok(Prepared {
        subject: prepared.subject,
        store: prepared.store.fork()?,
        bound: copy_pairs(alloc, &prepared.bound)?,
    })
}
