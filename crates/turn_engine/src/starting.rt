// How orders get their words.
ghost use Rattle.std.specs.Prelude.{◌≡◌, ◌++◌, ◌∷◌, [], map, codes, IfOk, OnOk};
ghost use Rattle.site_model.specs.PlainSite.{site_view};
ghost use Rattle.run_meaning.specs.Runs.{due_of, without_macro};
ghost use Rattle.run_text.specs.TurnReading.{report_read};
ghost use Rattle.check_plan.specs.Walks.{ordered_as};
ghost use Rattle.turn_engine.specs.Orders.{command_of, order_as};

use crate::order_out::OrderOut;
use check_plan::Ordered;
use command_macros::{MacroError, resolve};
use site_base::{Blob, OutOfMemory, Text};
use site_edge::Report;
use site_model::Site;
use std::alloc::Global;

/// The orders with their words, and the reports of those whose macros are missing.
#[derive(Drop)]
pub(crate) struct Started {
    pub(crate) orders: Vec<OrderOut>,
    pub(crate) not_started: Vec<Report>,
}

/// Gives these orders their words.
pub(crate) fn start(alloc: Global, site: &Site, ordered: &[Ordered]) -> Result<Started, OutOfMemory>
    ensures orders { IfOk result (λ r. map order_as r.orders.items ≡ map (ordered_as (command_of (site_view site.now))) ordered.now) }
    ensures not_started { IfOk result (λ r. map report_read r.not_started.items ≡ due_of (map (ordered_as (command_of (site_view site.now))) ordered.now)) }
{
    let mut started = Started {
        orders: Vec::with_capacity(alloc, ordered.len())?,
        not_started: Vec::new(alloc),
    };
    for order in ordered {
        start_one(alloc, site, order, &mut started)?;
    }
    Ok(started)
}

/// Gives an order its words.
fn start_one(
    alloc: Global,
    site: &Site,
    order: &Ordered,
    started: &mut Started,
) -> Result<(), OutOfMemory>
    ensures orders { OnOk result (map order_as started.new.orders.items ≡ map order_as started.old.orders.items ++ ordered_as (command_of (site_view site.now)) order.now ∷ []) }
    ensures not_started { OnOk result (map report_read started.new.not_started.items ≡ map report_read started.old.not_started.items ++ due_of (ordered_as (command_of (site_view site.now)) order.now ∷ [])) }
{
    let argv = match resolve(alloc, site, order.checkable) {
        Ok(words) => Ok(words),
        Err(MacroError::MissingMacro { name }) => {
            let report = report_without(alloc, order.number, name.as_str())?;
            started.not_started.push(report)?;
            Err(name)
        }
        Err(MacroError::OutOfMemory) => return Err(OutOfMemory),
    };
    started.orders.push(OrderOut {
        number: order.number,
        checkable: order.checkable,
        argv,
    })?;
    Ok(())
}

/// The report of an order for whose command a macro is missing.
fn report_without(alloc: Global, order: u64, name: &str) -> Result<Report, OutOfMemory>
    ensures { IfOk result (λ r. report_read r ≡ without_macro order name.now) }
{
    let mut text = Text::copy_of(alloc, "Macro '")?;
    text.push_str(name)?;
    text.push_str("' is missing")?;
    Ok(Report {
        order,
        status: 3,
        output: Blob::from(Vec::from_slice(alloc, text.as_str().as_bytes())?),
    })
}
