// Time periods.
ghost use Rattle.std.specs.Prelude.{◌≡◌, ◌++◌, map, length, IfOk, OnOk};
ghost use Rattle.std.specs.Option.{option_to_list, option_copied};
ghost use Rattle.std.specs.Arc.{arc_value};
ghost use Rattle.site_base.specs.Data.{Data};
ghost use Rattle.site_base.specs.View.{view, items_view};
ghost use Rattle.site_model.specs.PlainSite.{object_view};
ghost use Rattle.object_values.specs.Values.{texts_of, string_of};
ghost use Rattle.conf_check.specs.Keys.{name_of};
ghost use Rattle.object_lists.specs.Listed.{at_some, lent_view};
ghost use Rattle.object_lists.specs.Periods.{own_spans as spans_set, period_of, periods_among, spans_named as named_spans, spans_list, spans_under as under};

use crate::listed::Listed;
use object_types::{Attribute, ObjectType};
use object_values::{Attributes, text_of};
use site_base::{OutOfMemory, PeriodSpec, Ranges, Row, Tree};
use site_model::{Names, Object};
use std::alloc::Global;

/// The periods of a site. The ranges of each are read once; those that include or exclude it get copies of what was read.
pub fn period_specs(alloc: Global, listed: &Listed<'_>) -> Result<Row<PeriodSpec>, OutOfMemory>
    requires { listed.now.names ≡ map name_of (lent_view listed.now.objects.items) }
    ensures { IfOk result (λ r. r ≡ periods_among (lent_view listed.now.objects.items)) }
{
    let own = own_spans(alloc, &listed.objects)?;
    let mut specs = Vec::new(alloc);
    for place in 0..listed.objects.len() {
        let spans = copy_of(alloc, &own[place])?;
        let period = listed.objects[place];
        specs.push(period_spec(alloc, &listed.names, &own, period, spans)?)?;
    }
    Ok(Row::from(specs))
}

/// The spans that each of these periods sets.
fn own_spans(alloc: Global, periods: &[&Object]) -> Result<Vec<Ranges>, OutOfMemory>
    ensures { IfOk result (λ own. own.items ≡ map spans_set (lent_view periods.now)) }
{
    let mut own = Vec::new(alloc);
    for period in periods {
        own.push(attributes_of(period).spans(alloc, Attribute::Ranges)?)?;
    }
    Ok(own)
}

fn attributes_of(period: &Object) -> Attributes<'_>
    ensures kind { result.kind ≡ ObjectType.TimePeriod }
    ensures tree { result.tree.now ≡ arc_value period.now.tree }
{
    Attributes {
        kind: ObjectType::TimePeriod,
        tree: &period.tree,
    }
}

/// A period that sets these spans.
fn period_spec(
    alloc: Global,
    names: &Names,
    own: &[Ranges],
    period: &Object,
    spans: Ranges,
) -> Result<PeriodSpec, OutOfMemory>
    requires { spans ≡ spans_set (object_view period.now) }
    ensures { IfOk result (λ p. p ≡ period_of names.now own.now (object_view period.now)) }
{
    let attributes = attributes_of(period);
    Ok(PeriodSpec {
        own: spans,
        includes: spans_named(alloc, names, own, attributes.names(Attribute::Includes))?,
        excludes: spans_named(alloc, names, own, attributes.names(Attribute::Excludes))?,
        prefer_includes: attributes.flag(Attribute::PreferIncludes),
    })
}

/// The spans of the periods that the strings of an array name.
fn spans_named(
    alloc: Global,
    names: &Names,
    own: &[Ranges],
    wanted: &[Tree],
) -> Result<Row<Ranges>, OutOfMemory>
    ensures { IfOk result (λ r. r ≡ named_spans names.now own.now (texts_of (items_view wanted.now))) }
{
    let mut found = Vec::new(alloc);
    for item in wanted {
        push_named(alloc, &mut found, names, own, text_of(item))?;
    }
    Ok(Row::from(found))
}

/// Adds those of the period of this name, if there is one.
fn push_named(
    alloc: Global,
    out: &mut Vec<Ranges>,
    names: &Names,
    own: &[Ranges],
    name: Option<&str>,
) -> Result<(), OutOfMemory>
    ensures { OnOk result (out.new.items ≡ out.old.items ++ at_some (spans_list names.now own.now) (option_copied name.entry)) }
{
    match name {
        Some(name) => push_found(alloc, out, spans_under(names, own, name)),
        None => Ok(()),
    }
}

fn push_found(
    alloc: Global,
    out: &mut Vec<Ranges>,
    found: Option<&Ranges>,
) -> Result<(), OutOfMemory>
    ensures { OnOk result (out.new.items ≡ out.old.items ++ option_to_list (option_copied found.entry)) }
{
    if let Some(spans) = found {
        out.push(copy_of(alloc, spans)?)?;
    }
    Ok(())
}

/// The spans that the period of this name sets.
fn spans_under<'a>(names: &Names, own: &'a [Ranges], name: &str) -> Option<&'a Ranges>
    ensures { option_copied result ≡ under names.now own.now name.now }
{
    match names.find(name) {
        Some(place) => own.get(place as usize),
        None => None,
    }
}

fn copy_of(alloc: Global, spans: &Ranges) -> Result<Ranges, OutOfMemory>
    ensures { IfOk result (λ r. r ≡ spans.now) }
{
    Ok(Row::from(Vec::from_slice(alloc, spans.as_slice())?))
}
