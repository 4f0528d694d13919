// What groups see of an object.
ghost use Rattle.std.specs.Prelude.{◌≡◌, IfOk, option_map};
ghost use Rattle.std.specs.Arc.{arc_value};
ghost use Rattle.site_base.specs.View.{view as tree_view};
ghost use Rattle.eval_meaning.specs.States.{rule as rule_task};
ghost use Rattle.eval_meaning.specs.Views.{host as host_read_of};
ghost use Rattle.eval_work.specs.Works.{view_of, Gives};
ghost use Rattle.dsl_value.specs.PlainStores.{plain_store};
ghost use Rattle.object_types.specs.Names.{type_named};
ghost use Rattle.object_types.specs.declared.attribute.Attribute.TheVariants.{HostName};
ghost use Rattle.commit_meaning.specs.Groups.{member_names, service_seen as seen_with_host};
ghost use Rattle.commit_meaning.specs.Names.{text_of as string_of};
ghost use Rattle.commit_meaning.specs.Starts.{fresh};
ghost use Rattle.rule_expressions.specs.Seen.{names_of};

use eval_meaning::Read;
use eval_work::{Stop, WorldView};
use item_start::text_of;
use name_work::{find_object, is_absent};
use object_types::{Attribute, ObjectType};
use rule_expressions::Subject;
use site_base::{OutOfMemory, Text, Tree};
use site_model::Object;
use std::alloc::Global;

/// What the conditions of groups see of an object. The host of a service is the first read; without one there is nothing to see, and so it is for
/// objects that are in no groups.
pub(crate) fn seen_of<'a>(
    alloc: Global,
    view: &WorldView<'a>,
    member: &'a Object,
    reads: &mut Vec<Read>,
) -> Result<Option<Subject<'a>>, Stop>
    ensures { Gives (option_map names_of) result (fresh (plain_store view.now.store.now) rule_task reads.new.items) (member_names (view_of view.now) (type_named member.now.kind) (tree_view (arc_value member.now.tree)) (fresh (plain_store view.now.store.now) rule_task reads.old.items)) }
{
    match ObjectType::of_name(member.kind.as_str()) {
        Some(ObjectType::Host) => Ok(Some(Subject::Host(&member.tree))),
        Some(ObjectType::User) => Ok(Some(Subject::User(&member.tree))),
        Some(ObjectType::Service) => {
            let read = host_read(alloc, text_of(&member.tree, Attribute::HostName))?;
            service_seen(view, &member.tree, read, reads)
        }
        _ => Ok(None),
    }
}

/// A service with its host, which is read.
fn service_seen<'a>(
    view: &WorldView<'a>,
    service: &'a Tree,
    read: Read,
    reads: &mut Vec<Read>,
) -> Result<Option<Subject<'a>>, Stop>
    ensures { Gives (option_map names_of) result (fresh (plain_store view.now.store.now) rule_task reads.new.items) (seen_with_host (view_of view.now) (tree_view service.now) read (fresh (plain_store view.now.store.now) rule_task reads.old.items)) }
{
    match find_object(view.objects, &read) {
        Some(host) => {
            reads.push(read)?;
            Ok(Some(Subject::Service { host, service }))
        }
        None => {
            if !is_absent(view, &read) {
                return Err(Stop::Blocked(read));
            }
            reads.push(read)?;
            Ok(None)
        }
    }
}

fn host_read(alloc: Global, name: &str) -> Result<Read, OutOfMemory>
    ensures { IfOk result (λ r. r ≡ host_read_of name.now) }
{
    Ok(Read {
        kind: Text::copy_of(alloc, "Host")?,
        name: Text::copy_of(alloc, name)?,
    })
}
