// The items of a wave that the load registered.
ghost use Rattle.std.specs.Prelude.{◌≡◌, ◌++◌, Bool, not, IfOk, OnOk, map};
ghost use Rattle.std.specs.List.{filter};
ghost use Rattle.eval_work.specs.Works.{plain_item};
ghost use Rattle.commit_meaning.specs.Waves.{is_in_wave as in_wave};
ghost use Rattle.wave_order.specs.WaveItems.{as_registered, kept, plain_pending};

use crate::Pending;
use eval_work::Item;
use object_types::ObjectType;
use site_base::OutOfMemory;
use std::alloc::Global;

/// Items of a load, those of a wave apart from the others.
#[derive(Drop)]
pub struct Split {
    pub of_wave: Vec<Item>,
    pub others: Vec<Item>,
}

/// Takes the items of a wave, from 1 to 6, out of several, each list in its order.
pub fn split_wave(alloc: Global, items: Vec<Item>, wave: u8) -> Result<Split, OutOfMemory>
    ensures of_wave { IfOk result (λ s. map plain_item s.of_wave.items ≡ filter (λ i. in_wave wave i.kind) (map plain_item items.items)) }
    ensures others { IfOk result (λ s. map plain_item s.others.items ≡ filter (λ i. not (in_wave wave i.kind)) (map plain_item items.items)) }
{
    let mut split = Split {
        of_wave: Vec::new(alloc),
        others: Vec::new(alloc),
    };
    for item in items {
        split.add(item, wave)?;
    }
    Ok(split)
}

impl Split {
    /// Adds an item to its list.
    fn add(&mut self, item: Item, wave: u8) -> Result<(), OutOfMemory>
        ensures of_wave { OnOk result (map plain_item self.new.of_wave.items ≡ map plain_item self.old.of_wave.items ++ kept (in_wave wave item.kind) (plain_item item)) }
        ensures others { OnOk result (map plain_item self.new.others.items ≡ map plain_item self.old.others.items ++ kept (not (in_wave wave item.kind)) (plain_item item)) }
    {
        if is_in_wave(wave, item.kind.as_str()) {
            self.of_wave.push(item)?;
        } else {
            self.others.push(item)?;
        }
        Ok(())
    }
}

/// Adds those of some items that are of a wave, from 1 to 6, in their order. The others go.
pub fn add_registered<'a>(
    out: &mut Vec<Pending<'a>>,
    items: Vec<Item>,
    wave: u8,
) -> Result<(), OutOfMemory>
    ensures items { OnOk result (map plain_pending out.new.items ≡ map plain_pending out.old.items ++ filter (λ i. in_wave wave i.kind) (map plain_item items.items)) }
    ensures whole { OnOk result (out.new.items ≡ out.old.items ++ map as_registered (filter (λ i. in_wave wave i.kind) items.items)) }
{
    for item in items {
        add_one(out, item, wave)?;
    }
    Ok(())
}

fn add_one<'a>(out: &mut Vec<Pending<'a>>, item: Item, wave: u8) -> Result<(), OutOfMemory>
    ensures items { OnOk result (map plain_pending out.new.items ≡ map plain_pending out.old.items ++ kept (in_wave wave item.kind) (plain_item item)) }
    ensures whole { OnOk result (out.new.items ≡ out.old.items ++ kept (in_wave wave item.kind) (as_registered item)) }
{
    if is_in_wave(wave, item.kind.as_str()) {
        out.push(Pending::Registered(item))?;
    }
    Ok(())
}

/// Whether the objects of a type are made in a wave. What isn't a type has none.
pub fn is_in_wave(wave: u8, kind: &str) -> bool
    ensures { result ≡ in_wave wave kind.now }
{
    match ObjectType::of_name(kind) {
        Some(kind) => kind.wave() == wave,
        None => 0 == wave,
    }
}
