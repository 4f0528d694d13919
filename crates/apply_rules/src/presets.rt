// The attributes that an instance has from the start.
ghost use Rattle.std.specs.Prelude.{◌≡◌, ◌++◌, ◌∷◌, [], IfOk, OnOk, map};
ghost use Rattle.site_base.specs.Data.{string};
ghost use Rattle.eval_meaning.specs.Registration.{name_preset};
ghost use Rattle.eval_work.specs.Works.{plain_pair};
ghost use Rattle.object_types.specs.Names.{type_named};
ghost use Rattle.commit_meaning.specs.Names.{target_presets, host_presets, service_presets};
ghost use Rattle.apply_rules.specs.Keys.{AreKeys};
ghost use Rattle.apply_rules.specs.Plain.{plain_target};

use crate::own_name::own_text;
use crate::{PresetKeys, Target};
use object_types::ObjectType;
use site_base::{OutOfMemory, Text, Tree};
use std::alloc::Global;

/// The attributes that an instance of a rule has before its body is run: its name, and the names of its target.
#[tactic(auto, using(std::proofs::Common::append_assoc))]
pub(crate) fn presets(
    alloc: Global,
    keys: &PresetKeys,
    kind: &Text,
    name: &Text,
    target: &Target,
) -> Result<Vec<(Text, Tree)>, OutOfMemory>
    requires { AreKeys keys.now }
    ensures { IfOk result (λ ps. map plain_pair ps.items ≡ name_preset name.now ++ target_presets (type_named kind.now) (plain_target target.now)) }
{
    let mut presets = Vec::new(alloc);
    preset(&mut presets, &keys.name, name.clone()?)?;
    let kind = ObjectType::of_name(kind.as_str());
    add_target(alloc, keys, &mut presets, kind, target)?;
    Ok(presets)
}

fn add_target(
    alloc: Global,
    keys: &PresetKeys,
    presets: &mut Vec<(Text, Tree)>,
    kind: Option<ObjectType>,
    target: &Target,
) -> Result<(), OutOfMemory>
    requires { AreKeys keys.now }
    ensures { OnOk result (map plain_pair presets.new.items ≡ map plain_pair presets.old.items ++ target_presets kind (plain_target target.now)) }
{
    match target {
        Target::Host(host) => add_host(keys, presets, kind, own_text(alloc, &host.name)?),
        Target::Service { host, service } => {
            let host = own_text(alloc, &host.name)?;
            add_service(keys, presets, kind, host, own_text(alloc, &service.name)?)
        }
    }
}

/// The name of a host, under the attribute that the type has for it.
fn add_host(
    keys: &PresetKeys,
    presets: &mut Vec<(Text, Tree)>,
    kind: Option<ObjectType>,
    host: Text,
) -> Result<(), OutOfMemory>
    requires { AreKeys keys.now }
    ensures { OnOk result (map plain_pair presets.new.items ≡ map plain_pair presets.old.items ++ host_presets kind host) }
{
    match kind {
        Some(ObjectType::Dependency) => preset(presets, &keys.child_host_name, host),
        _ => preset(presets, &keys.host_name, host),
    }
}

/// The names of a host and its service. A dependency of a service has the service's host as its parent.
#[tactic(auto, using(std::proofs::Common::append_assoc))]
fn add_service(
    keys: &PresetKeys,
    presets: &mut Vec<(Text, Tree)>,
    kind: Option<ObjectType>,
    host: Text,
    service: Text,
) -> Result<(), OutOfMemory>
    requires { AreKeys keys.now }
    ensures { OnOk result (map plain_pair presets.new.items ≡ map plain_pair presets.old.items ++ service_presets kind host service) }
{
    match kind {
        Some(ObjectType::Dependency) => {
            preset(presets, &keys.child_host_name, host.clone()?)?;
            preset(presets, &keys.child_service_name, service)?;
            preset(presets, &keys.parent_host_name, host)
        }
        _ => {
            preset(presets, &keys.host_name, host)?;
            preset(presets, &keys.service_name, service)
        }
    }
}

/// Adds an attribute that holds a name.
fn preset(presets: &mut Vec<(Text, Tree)>, key: &Text, name: Text) -> Result<(), OutOfMemory>
    ensures { OnOk result (map plain_pair presets.new.items ≡ map plain_pair presets.old.items ++ (key.now, string name) ∷ []) }
{
    presets.push((key.clone()?, Tree::Str(name)))?;
    Ok(())
}
