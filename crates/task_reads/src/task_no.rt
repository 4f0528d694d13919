// Which task was given to a baker.
ghost use Rattle.std.specs.Prelude.{◌≡◌};
ghost use Rattle.eval_work.specs.Works.{plain_rule};
ghost use Rattle.apply_rules.specs.Plain.{plain_target};
ghost use Rattle.commit_meaning.specs.Names.{target_no as number_in_number};
ghost use Rattle.commit_meaning.specs.Rules.{pair_number};

use apply_rules::Target;
use eval_work::Rule;
use site_base::{ItemNo, TargetNo};

/// What a task is.
#[derive(Clone, Copy)]
pub enum TaskKind {
    /// An item, of which an object is made.
    Item,
    /// A rule at one of its targets.
    Pair,
    /// An object that groups may take.
    Member,
}

/// A task: what it is, and its number.
#[derive(Clone, Copy)]
pub struct TaskNo {
    pub kind: TaskKind,
    pub number: ItemNo,
}

/// The number of a rule at a target.
pub(crate) fn number_of_pair(rule: &Rule, target: &Target) -> ItemNo
    ensures { result ≡ pair_number (plain_rule rule.now) (plain_target target.now) }
{
    let target = match target {
        Target::Host(host) => number_in_pairs(host.number),
        Target::Service { service, .. } => number_in_pairs(service.number),
    };
    ItemNo {
        item: rule.number.item,
        target,
        key: 0,
    }
}

/// The number of an object, as the numbers of pairs have it of their target.
fn number_in_pairs(number: ItemNo) -> TargetNo
    ensures { result ≡ number_in_number number }
{
    TargetNo {
        item: number.item,
        host: number.target.item,
        key: number.key,
    }
}
