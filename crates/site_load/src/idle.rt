// Apply rules that make no object.
ghost use Rattle.std.specs.Prelude.{◌≡◌, List, [], map, IfOk, OnOk};
ghost use Rattle.object_lists.specs.Receivers.{with_new};
ghost use Rattle.site_model.specs.PlainSite.{object_view};
ghost use Rattle.eval_work.specs.Works.{plain_rule};
ghost use Rattle.site_phases.specs.Phases.{answer_view};
ghost use Rattle.site_load.specs.Idle.{idle_after, idle_among, mark_of, source_of};

use eval_work::Rule;
use indexmap::IndexSet;
use site_base::{OutOfMemory, Place, Row};
use site_model::Object;
use site_phases::Answer;
use std::alloc::Global;

/// The number of a rule's statement, and where it stands.
#[derive(Clone, Copy)]
pub(crate) struct Mark {
    pub(crate) item: u32,
    pub(crate) place: Place,
}

/// What is kept of rules while their objects are made.
pub(crate) fn marks_of(alloc: Global, rules: &[Rule]) -> Result<Vec<Mark>, OutOfMemory>
    ensures { IfOk result (λ ms. ms.items ≡ map mark_of (map plain_rule rules.now)) }
{
    let mut marks = Vec::new(alloc);
    for rule in rules {
        marks.push(Mark {
            item: rule.number.item,
            place: rule.place,
        })?;
    }
    Ok(marks)
}

/// The places of those rules of which the answer has no object; none if it has no site.
#[tactic(auto, using(crate::proofs::Idling::idle_by_sources))]
pub(crate) fn idle_rules(
    alloc: Global,
    rules: &[Mark],
    answer: &Answer,
) -> Result<Row<Place>, OutOfMemory>
    ensures { IfOk result (λ places. places ≡ idle_after rules.now (answer_view answer.now)) }
{
    match answer {
        Answer::Site(site) => {
            let sources = sources_of(alloc, site.objects.as_slice())?;
            idle_of(alloc, rules, &sources)
        }
        Answer::Diags { .. } => Ok(Row::new(alloc)),
    }
}

/// The numbers of the statements that objects come from.
fn sources_of(alloc: Global, objects: &[Object]) -> Result<IndexSet<u32>, OutOfMemory>
    ensures { IfOk result (λ s. s.keys ≡ with_new [] (map source_of (map object_view objects.now))) }
{
    let mut sources = no_sources(alloc);
    add_sources(&mut sources, objects)?;
    Ok(sources)
}

fn no_sources(alloc: Global) -> IndexSet<u32>
    ensures { result.keys ≡ [] }
{
    IndexSet::new(alloc)
}

fn add_sources(sources: &mut IndexSet<u32>, objects: &[Object]) -> Result<(), OutOfMemory>
    ensures { OnOk result (sources.new.keys ≡ with_new sources.old.keys (map source_of (map object_view objects.now))) }
{
    for object in objects {
        sources.insert(object.number.item)?;
    }
    Ok(())
}

/// The places of those rules from which nothing comes.
fn idle_of(
    alloc: Global,
    rules: &[Mark],
    sources: &IndexSet<u32>,
) -> Result<Row<Place>, OutOfMemory>
    ensures { IfOk result (λ places. places ≡ idle_among rules.now sources.now.keys) }
{
    let mut places = Row::new(alloc);
    for rule in rules {
        if !sources.contains(&rule.item) {
            places.push(rule.place)?;
        }
    }
    Ok(places)
}
