// The names of the attributes that instances have from the start.
ghost use Rattle.std.specs.Prelude.{◌≡◌, IfOk};
ghost use Rattle.object_types.specs.Names.{attribute_name};
ghost use Rattle.apply_rules.specs.Keys.{AreKeys};

use object_types::Attribute;
use site_base::{OutOfMemory, Text};
use std::alloc::Global;

/// The names of the attributes that instances of rules have from the start. They are made once, so that all instances share their
/// bytes.
#[derive(Drop)]
pub struct PresetKeys {
    pub(crate) name: Text,
    pub(crate) host_name: Text,
    pub(crate) service_name: Text,
    pub(crate) child_host_name: Text,
    pub(crate) child_service_name: Text,
    pub(crate) parent_host_name: Text,
}

impl PresetKeys {
    /// Makes the texts of these names.
    pub fn new(alloc: Global) -> Result<PresetKeys, OutOfMemory>
        ensures { IfOk result AreKeys }
    {
        Ok(PresetKeys {
            name: key(alloc, Attribute::Name)?,
            host_name: key(alloc, Attribute::HostName)?,
            service_name: key(alloc, Attribute::ServiceName)?,
            child_host_name: key(alloc, Attribute::ChildHostName)?,
            child_service_name: key(alloc, Attribute::ChildServiceName)?,
            parent_host_name: key(alloc, Attribute::ParentHostName)?,
        })
    }
}

fn key(alloc: Global, attribute: Attribute) -> Result<Text, OutOfMemory>
    ensures { IfOk result (λ k. k ≡ attribute_name attribute) }
{
    Text::copy_of(alloc, attribute.name())
}
