// A checkable as the machine of a turn lock.
use crate::{Checkable, Deed};
use depend_graph::Graph;
use post_turn::Machine;
use site_base::Moment;
use site_model::{Entry, Site, View};
use time_range::Zone;

/// A checkable of a site, in the turns of a moment: each deed of a caller makes its next entry. A state is fit that is of this
/// checkable and has no later entry, and a deed is lawful that is of this moment and has a sight of each ancestor.
#[derive(Drop)]
pub struct SiteMachine<'a> {
    pub site: &'a Site,
    pub graph: &'a Graph,
    pub zone: &'a Zone,
    pub checkable: u32,
    pub moment: Moment,
}

impl<'a> Machine for SiteMachine<'a> {
    ghost use Rattle.checkable_core.specs.Machines.{IsFit, IsDeedFor, after_entry, entry_by, glance_by};

    type State = Checkable;

    type Event = Deed;

    type Entry = Entry;

    type Glance = View;

    ghost fit = { IsFit };

    ghost lawful = { IsDeedFor };

    ghost entry_of = { entry_by };

    ghost caller_of = { λ e. e.caller };

    ghost after = { after_entry };

    ghost glance_of = { glance_by };

    fn step(&self, state: &mut Checkable, caller: u32, event: Deed) -> Result<Entry, Deed> {
        let Deed {
            moment,
            event,
            sights,
        } = event;
        match state.apply(
            self.site,
            self.graph,
            self.zone,
            caller,
            moment,
            event,
            sights.as_slice(),
        ) {
            Ok(entry) => Ok(entry),
            Err(event) => Err(Deed {
                moment,
                event,
                sights,
            }),
        }
    }

    fn glance(&self, state: &Checkable) -> View {
        state.view()
    }
}
