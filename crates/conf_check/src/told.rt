// What is told of objects.
ghost use Rattle.std.specs.Prelude.{◌≡◌, ◌++◌, ◌∷◌, [], IfOk, OnOk};
ghost use Rattle.object_types.specs.declared.object_type.ObjectType.TheVariants as object;
ghost use Rattle.conf_check.specs.Keys.{in_keys};

use crate::keys::{Keys, push_key};
use object_types::ObjectType;
use site_base::{Diag, Diags, OutOfMemory, Row};
use std::alloc::Global;
use std::marker::Model;

/// What is told so far, and a string in which the keys that are looked up are put together, one after another. Clauses see it as the
/// list of the diagnostics.
#[derive(Drop)]
pub(crate) struct Told {
    faults: Diags,
    key: String,
}

impl Model for Told {
    ghost use Rattle.std.specs.Prelude.{List};
    ghost use Rattle.site_base.specs.declared.diag.Diag.{Diag};

    ghost Value = { List Diag };

    ghost view = { λ t. t.faults };
}

impl Told {
    /// Nothing yet.
    pub(crate) fn new(alloc: Global) -> Told
        ensures { result ≡ [] }
    {
        Told {
            faults: Row::new(alloc),
            key: String::new(alloc),
        }
    }

    /// Tells a fault behind the others.
    pub(crate) fn push(&mut self, fault: Diag) -> Result<(), OutOfMemory>
        ensures { OnOk result (self.new ≡ self.old ++ fault ∷ []) }
    {
        self.faults.push(fault)
    }

    /// Whether there is an object of a type under a full name.
    pub(crate) fn knows(
        &mut self,
        keys: &Keys,
        kind: ObjectType,
        name: &str,
    ) -> Result<bool, OutOfMemory>
        ensures has { IfOk result (λ has. has ≡ in_keys keys.now kind name.now) }
        ensures same { OnOk result (self.new ≡ self.old) }
    {
        self.key.clear();
        push_key(&mut self.key, kind, name)?;
        Ok(keys.has(self.key.as_str()))
    }

    /// Whether there is a service of this name of a host.
    pub(crate) fn knows_service(
        &mut self,
        keys: &Keys,
        host: &str,
        name: &str,
    ) -> Result<bool, OutOfMemory>
        ensures has { IfOk result (λ has. has ≡ in_keys keys.now object.Service (host.now ++ 33 ∷ name.now)) }
        ensures same { OnOk result (self.new ≡ self.old) }
    {
        self.key.clear();
        push_key(&mut self.key, ObjectType::Service, host)?;
        self.key.push('!')?;
        self.key.push_str(name)?;
        Ok(keys.has(self.key.as_str()))
    }

    /// All that was told.
    pub(crate) fn into_faults(self) -> Diags
        ensures { result ≡ self }
    {
        self.faults
    }
}
