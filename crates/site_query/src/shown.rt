// What checkables show.
ghost use Rattle.std.specs.Prelude.{◌≡◌, ◌≤◌};
ghost use Rattle.run_meaning.specs.Dealing.{last_moment};
ghost use Rattle.run_meaning.specs.View.{is_on as is_acknowledged};
ghost use Rattle.site_model.specs.PlainSite.{check_view, site_view};
ghost use Rattle.checkable_core.specs.Contents.{check_at};
ghost use Rattle.site_query.specs.Shown.{bit as bit_of, cell_view, shown as shown_by, shown_view, state_number as number_of, value_in};

use crate::Column;
use crate::cell::Cell;
use checkable_core::Checkable;
use site_base::Moment;
use site_model::{Ack, CheckSpec, State, View};

/// What a checkable shows at a moment.
#[derive(Clone, Copy)]
pub(crate) struct Shown<'a> {
    /// Whether it is a host; else it is a service.
    pub(crate) host: bool,
    pub(crate) name: &'a str,
    pub(crate) view: View,
    /// The number of the downtime in effect, or 0.
    pub(crate) downtime: u64,
}

impl<'a> Shown<'a> {
    /// What this checkable shows, which the site sets so.
    pub(crate) fn of(spec: &'a CheckSpec, book: &Checkable, moment: Moment) -> Shown<'a>
        requires spec { check_at (site_view book.now.site) book.now.index ≡ check_view spec.now }
        requires moment { last_moment book.now.entries ≤ moment }
        ensures { shown_view result ≡ shown_by (check_view spec.now) book.now.entries moment }
    {
        Shown {
            host: spec.host.is_none(),
            name: spec.name.as_str(),
            view: book.view(),
            downtime: book.in_effect(moment).unwrap_or(0),
        }
    }

    /// What stands in a column.
    pub(crate) fn cell(&self, column: Column) -> Cell<'a>
        ensures { cell_view result ≡ value_in column (shown_view self.now) }
    {
        match column {
            Column::Name => Cell::Words(self.name),
            Column::State => Cell::Count(state_number(self.view.state)),
            Column::Hard => Cell::Count(bit(self.view.hard)),
            Column::HasResult => Cell::Count(bit(self.view.has_result)),
            Column::Acknowledged => Cell::Count(bit(is_acknowledged(self.view.ack))),
            Column::Flapping => Cell::Count(bit(self.view.flapping)),
            Column::Attempt => Cell::Count(u64::from(self.view.attempt)),
            Column::Change => Cell::Count(self.view.change.secs()),
            Column::Count => Cell::Count(self.view.count),
            Column::Downtime => Cell::Count(self.downtime),
        }
    }
}

/// The number of a state: of a service's from 0 to 3, of a host's 0 or 1.
fn state_number(state: State) -> u64
    ensures { result ≡ number_of state }
{
    match state {
        State::Okay | State::Up => 0,
        State::Warning | State::Down => 1,
        State::Critical => 2,
        State::Unknown => 3,
    }
}

fn bit(holds: bool) -> u64
    ensures { result ≡ bit_of holds }
{
    if holds { 1 } else { 0 }
}

fn is_acknowledged(ack: Ack) -> bool
    ensures { result ≡ is_acknowledged ack }
{
    match ack {
        Ack::Off => false,
        Ack::Normal | Ack::Sticky => true,
    }
}
