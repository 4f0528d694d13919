// The items of a wave before their turn.
ghost use Rattle.std.specs.Prelude.{◌≡◌, IfOk};
ghost use Rattle.apply_rules.specs.Keys.{AreKeys};
ghost use Rattle.eval_work.specs.Works.{plain_item};
ghost use Rattle.wave_order.specs.WaveItems.{plain_pending};

use apply_rules::{Instance, PresetKeys};
use eval_work::Item;
use site_base::{ItemNo, OutOfMemory, Place};
use std::alloc::Global;

/// An item of a wave before its turn: one that the load registered, or what a rule makes at a target, which has no copies of trees yet.
#[derive(Drop)]
pub enum Pending<'a> {
    Registered(Item),
    Made(Instance<'a>),
}

impl<'a> Pending<'a> {
    /// The number by which the items of a wave stand.
    pub fn number(&self) -> ItemNo
        ensures { result ≡ (plain_pending self.now).number }
    {
        match self {
            Pending::Registered(item) => item.number,
            Pending::Made(instance) => instance.number(),
        }
    }

    /// Where the statement of its object or its rule stands.
    pub fn place(&self) -> Place
        ensures { result ≡ (plain_pending self.now).place }
    {
        match self {
            Pending::Registered(item) => item.place,
            Pending::Made(instance) => instance.place(),
        }
    }

    /// The type of its object.
    pub fn kind(&self) -> &str
        ensures { result.now ≡ (plain_pending self.now).kind }
    {
        match self {
            Pending::Registered(item) => item.kind.as_str(),
            Pending::Made(instance) => instance.kind(),
        }
    }

    /// The item itself.
    pub fn into_item(self, alloc: Global, keys: &PresetKeys) -> Result<Item, OutOfMemory>
        requires { AreKeys keys.now }
        ensures { IfOk result (λ i. plain_item i ≡ plain_pending self.entry) }
    {
        match self {
            Pending::Registered(item) => Ok(item),
            Pending::Made(instance) => instance.into_item(alloc, keys),
        }
    }
}
