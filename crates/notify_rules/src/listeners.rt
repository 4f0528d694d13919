// The users of a notification, and which of them were told.
ghost use Rattle.std.specs.Prelude.{◌≡◌, ◌≤◌, ◌∷◌, [], Some, map, length, IfOk};
ghost use Rattle.std.specs.List.{position_from};
ghost use Rattle.site_model.specs.Sound.{AreDistinct};
ghost use Rattle.notify_rules.specs.Sent.{user_of, untold, told_by, forgotten, is_user, IsAt};

use site_base::OutOfMemory;
use std::alloc::Global;
use std::marker::Model;

/// A user of a notification.
#[derive(Clone, Copy)]
pub struct Listener {
    pub user: u32,
    /// Whether a problem was sent to the user since the last result without one.
    pub told: bool,
}

/// The users of a notification, in its order. Clauses see them as a list.
#[derive(Drop)]
pub struct Listeners {
    items: Vec<Listener>,
}

impl Model for Listeners {
    ghost use Rattle.std.specs.Prelude.{List};
    ghost use Rattle.notify_rules.specs.declared.listeners.Listener.{Listener as One};

    ghost Value = { List One };

    ghost view = { λ l. l.items.items };
}

impl Listeners {
    /// None of these users was told.
    pub(crate) fn untold(alloc: Global, users: &[u32]) -> Result<Listeners, OutOfMemory>
        ensures { IfOk result (λ l. l ≡ map untold users.now) }
    {
        let mut items = Vec::with_capacity(alloc, users.len())?;
        for user in users {
            items.push(Listener {
                user: *user,
                told: false,
            })?;
        }
        Ok(Listeners { items })
    }

    pub(crate) fn as_slice(&self) -> &[Listener]
        ensures { result.now ≡ self.now }
    {
        self.items.as_slice()
    }

    /// A problem was sent to these users. Where they are in the order of the listeners, it takes the time of both.
    pub(crate) fn tell(&mut self, users: &[u32])
        ensures { AreDistinct (map user_of self.old) → self.new ≡ map (told_by (Some users.now)) self.old }
    {
        let mut from = 0;
        for user in users {
            from = self.tell_one(from, *user);
        }
    }

    /// A problem was sent to a user, who is looked for from a place on and then before it. Gives the place behind.
    fn tell_one(&mut self, from: usize, user: u32) -> usize
        requires { from ≤ length self.old }
        ensures within { result ≤ length self.new }
        ensures told { AreDistinct (map user_of self.old) → self.new ≡ map (told_by (Some (user ∷ []))) self.old }
    {
        match place_from(self.items.as_slice(), from, user) {
            None => from,
            Some(place) => {
                self.items[place].told = true;
                place + 1
            }
        }
    }

    /// A result without a problem came: nobody was told since.
    pub(crate) fn forget(&mut self)
        ensures { self.new ≡ map forgotten self.old }
    {
        for listener in self.items.iter_mut() {
            listener.told = false;
        }
    }
}

/// Where the user stands, looked for from a place on and then before it.
fn place_from(listeners: &[Listener], from: usize, user: u32) -> Option<usize>
    requires { from ≤ length listeners.now }
    ensures { IsAt (is_user user) listeners.now result }
{
    let (before, behind) = listeners.split_at(from);
    match place_in(behind, user) {
        Some(place) => Some(from + place),
        None => place_in(before, user),
    }
}

fn place_in(listeners: &[Listener], user: u32) -> Option<usize>
    ensures { result ≡ position_from (is_user user) 0 listeners.now }
{
    listeners.iter().position(|listener| listener.user == user)
}
