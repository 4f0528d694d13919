// What was sent of one notification.
ghost use Rattle.std.specs.Prelude.{◌≡◌, map, IfOk, None};
ghost use Rattle.site_model.specs.Sound.{AreDistinct};
ghost use Rattle.notify_rules.specs.Sent.{user_of, untold, taken, forgetting};

use crate::listeners::Listeners;
use site_base::{Moment, OutOfMemory};
use std::alloc::Global;

/// What was sent of one notification.
#[derive(Drop)]
pub struct SentNote {
    /// Its index among the site's notifications.
    pub notification: u32,
    /// When a problem was sent last.
    pub problem: Option<Moment>,
    pub listeners: Listeners,
}

impl SentNote {
    /// Nothing was sent of the notification of this index, which has these users.
    pub(crate) fn new(
        alloc: Global,
        notification: u32,
        users: &[u32],
    ) -> Result<SentNote, OutOfMemory>
        ensures { IfOk result (λ r. r ≡ record { notification = notification; problem = None; listeners = map untold users.now }) }
    {
        Ok(SentNote {
            notification,
            problem: None,
            listeners: Listeners::untold(alloc, users)?,
        })
    }

    /// A problem was sent to these users.
    pub(crate) fn take(&mut self, moment: Moment, users: &[u32])
        ensures { AreDistinct (map user_of self.old.listeners) → self.new ≡ taken moment users.now self.old }
    {
        self.problem = Some(moment);
        self.listeners.tell(users);
    }

    /// A result without a problem came.
    pub(crate) fn forget(&mut self)
        ensures { self.new ≡ forgetting self.old }
    {
        self.listeners.forget();
    }
}
