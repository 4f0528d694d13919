// Rules at targets with their reads.
ghost use Rattle.std.specs.Prelude.{◌≡◌, List, IfOk, map};
ghost use Rattle.site_model.specs.PlainSite.{PlainObject};
ghost use Rattle.eval_meaning.specs.Load.{Loaded};
ghost use Rattle.eval_work.specs.Works.{plain_rule, view_of};
ghost use Rattle.apply_rules.specs.Lawful.{IsApplicable};
ghost use Rattle.apply_rules.specs.Plain.{plain_target, rule_answer};
ghost use Rattle.apply_rules.specs.Sharing.{IsAnswerShared};
ghost use Rattle.commit_meaning.specs.Rules.{instances, pair_number};
ghost use Rattle.commit_meaning.specs.Worlds.{world_view};
ghost use Rattle.task_reads.specs.Given.{GivesOnly, pair_no};
ghost use Rattle.task_reads.specs.Looks.{IsWithReads, plain_look};

use crate::told::Told;
use crate::{Baker, Look};
use apply_rules::{PreparedTarget, RuleAnswer, Target};
use eval_work::{Locals, Rule, WorldView};
use site_base::OutOfMemory;
use std::alloc::Global;

/// What a rule comes to at a target over a world, and its reads with what they found, as [`crate::item_with_reads`] says it of items. The
/// target was prepared for the world's store.
///
/// # Errors
///
/// `OutOfMemory` if there is none for the answer or for what is made on the way.
pub fn pair_with_reads<'a, B: Baker>(
    alloc: Global,
    baker: &mut B,
    world: &WorldView,
    rule: &'a Rule,
    target: &Target<'a>,
    prepared: &PreparedTarget<'a>,
    spare: &mut Locals,
) -> Result<(RuleAnswer<'a>, Vec<Look>), OutOfMemory>
    requires applicable { IsApplicable world.now rule.now prepared.now }
    requires prepared { prepared.now.target ≡ target.now }
    ensures answer { (load : Loaded) (os : List PlainObject) → view_of world.now ≡ world_view load os
        → IfOk result (λ x. IsWithReads (λ view. instances view (plain_rule rule.now) (plain_target target.now)) load os (rule_answer x.0) (map plain_look x.1.items)) }
    ensures shared { IfOk result (λ x. IsAnswerShared world.now.store.now x.0) }
    ensures only { GivesOnly (pair_no (pair_number (plain_rule rule.now) (plain_target target.now))) (B.tasks baker.old) (B.tasks baker.new) }
{
    let mut told = Told::new(alloc);
    for _ in 0..u64::MAX {
        match baker.rule(
            alloc,
            &told.view(world.store, world.templates),
            rule,
            target,
            prepared,
            spare,
        )? {
            RuleAnswer::Instances(made) => {
                return Ok((RuleAnswer::Instances(made), told.into_looks()));
            }
            RuleAnswer::Diag(diag) => return Ok((RuleAnswer::Diag(diag), told.into_looks())),
            RuleAnswer::Blocked(read) => told.decide(world, read)?,
        }
    }
    Err(OutOfMemory)
}
