// What stands before a wave.
ghost use Rattle.std.specs.Prelude.{◌≡◌, ◌++◌, [], IfOk, OnOk, map};
ghost use Rattle.site_model.specs.PlainSite.{object_view};
ghost use Rattle.object_types.specs.Names.{all_types, type_name};
ghost use Rattle.eval_work.specs.Works.{view_of, plain_item};
ghost use Rattle.dsl_load.specs.Loads.{plain_parts};
ghost use Rattle.commit_meaning.specs.Worlds.{world_view};

use dsl_load::LoadParts;
use eval_work::{Committed, Item, Known, WorldView};
use object_types::ObjectType;
use site_base::{OutOfMemory, Text};
use site_model::Object;
use std::alloc::Global;

/// All types.
const TYPES: [ObjectType; 22] = [
    ObjectType::Host,
    ObjectType::Service,
    ObjectType::HostGroup,
    ObjectType::ServiceGroup,
    ObjectType::UserGroup,
    ObjectType::CheckCommand,
    ObjectType::NotificationCommand,
    ObjectType::EventCommand,
    ObjectType::User,
    ObjectType::Notification,
    ObjectType::Dependency,
    ObjectType::ScheduledDowntime,
    ObjectType::TimePeriod,
    ObjectType::Endpoint,
    ObjectType::Zone,
    ObjectType::CheckerComponent,
    ObjectType::NotificationComponent,
    ObjectType::FileLogger,
    ObjectType::SyslogLogger,
    ObjectType::ApiListener,
    ObjectType::ApiUser,
    ObjectType::IcingaApplication,
];

/// Adds the items of groups after others.
///
/// # Errors
///
/// `OutOfMemory` if there is too little memory for all of them.
pub fn add_groups(out: &mut Vec<Item>, more: Vec<Item>) -> Result<(), OutOfMemory>
    ensures { OnOk result (map plain_item out.new.items ≡ map plain_item out.old.items ++ map plain_item more.items) }
{
    let mut more = more;
    out.append(&mut more)?;
    Ok(())
}

/// Commits objects after others.
pub(crate) fn add_objects(out: &mut Committed, more: Vec<Object>) -> Result<(), OutOfMemory>
    ensures { OnOk result (out.new ≡ out.old ++ more.items) }
{
    for object in more {
        out.add(object)?;
    }
    Ok(())
}

/// What is known beside the objects of a world: that all of each type are there.
pub(crate) fn all_known(alloc: Global) -> Result<Known, OutOfMemory>
    ensures whole { IfOk result (λ k. k.whole.items ≡ map type_name all_types) }
    ensures absent { IfOk result (λ k. k.absent.items ≡ []) }
{
    Ok(Known {
        whole: names_of(alloc, &TYPES)?,
        absent: Vec::new(alloc),
    })
}

fn names_of(alloc: Global, kinds: &[ObjectType]) -> Result<Vec<Text>, OutOfMemory>
    ensures { IfOk result (λ names. names.items ≡ map type_name kinds.now) }
{
    let mut names = Vec::with_capacity(alloc, kinds.len())?;
    for kind in kinds {
        names.push(Text::copy_of(alloc, kind.name())?)?;
    }
    Ok(names)
}

/// What evaluations over a world are told.
pub fn view_before<'a>(
    parts: &'a LoadParts,
    objects: &'a Committed,
    known: &'a Known,
) -> WorldView<'a>
    requires whole { known.now.whole.items ≡ map type_name all_types }
    requires absent { known.now.absent.items ≡ [] }
    ensures view { view_of result ≡ world_view (plain_parts parts.now) (map object_view objects.now) }
    ensures store { result.store.now ≡ parts.now.store }
    ensures templates { result.templates.now ≡ parts.now.templates }
    ensures objects { result.objects.now ≡ objects.now }
{
    WorldView {
        store: &parts.store,
        templates: &parts.templates,
        rules: &parts.rules,
        objects,
        known,
        files: &[],
    }
}
