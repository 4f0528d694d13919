// What decides about every notification of an entry.
ghost use Rattle.std.specs.Prelude.{◌≡◌, not, ◌&&◌, ◌||◌};
ghost use Rattle.run_meaning.specs.View.{is_hard_problem, same_state};
ghost use Rattle.run_meaning.specs.Decisions.{is_hard, is_result};

use check_state::is_problem;
use depend_graph::Reach;
use site_base::Moment;
use site_model::{Event, State, View};

/// What decides about every notification of an entry: what its checkable shows after it, whether its problem is fresh,
/// what holds notifications back, and when it is.
#[derive(Clone, Copy)]
pub(crate) struct Asked {
    pub after: View,
    /// Whether a problem is told without regard to when it was told last.
    pub fresh: bool,
    pub reach: Reach,
    /// The downtime in effect, by the number of the entry that began it.
    pub downtime: Option<u64>,
    pub moment: Moment,
}

/// Whether a view is a HARD problem.
pub(crate) fn is_hard(view: &View) -> bool
    ensures { result ≡ is_hard view.now }
{
    view.hard && is_problem(view.state)
}

pub(crate) fn is_result(event: &Event) -> bool
    ensures { result ≡ is_result event.now }
{
    matches!(event, Event::Result { .. })
}

/// Whether a problem is fresh: a result made it HARD, changed its state, or came to a volatile checkable.
pub(crate) fn is_fresh(volatile: bool, before: &View, after: &View, event: &Event) -> bool
    ensures { result ≡ (is_result event.now && (not (is_hard before.now && same_state before.now.state after.now.state) || volatile)) }
{
    is_result(event) && (!(is_hard(before) && is_same(before.state, after.state)) || volatile)
}

fn is_same(left: State, right: State) -> bool
    ensures { result ≡ same_state left right }
{
    left == right
}
