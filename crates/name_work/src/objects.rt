// Reads of committed objects.
ghost use Rattle.std.specs.Prelude.{◌≡◌, IfOk, IfErr, IfSome, IfNone, Some, None, [], ◌∷◌, ◌++◌, List, ℕ, codes, map};
ghost use Rattle.site_base.specs.View.{view as tree_view};
ghost use Rattle.eval_meaning.specs.Views.{object_in, is_absent as absent_of};
ghost use Rattle.eval_meaning.specs.Objects.{read_host as host_read, read_service as service_read, read as read_of, loaded as tree_loaded};
ghost use Rattle.eval_meaning.specs.Views.{host, service};
ghost use Rattle.eval_work.specs.Works.{state_of, view_of, shown_object, Gives};
ghost use Rattle.eval_work.specs.Kept.{IsFit, IsKept};

use dsl_value::{Value, tree_cost};
use eval_meaning::Read;
use eval_work::{Committed, Stop, Work, WorldView, fault};
use site_base::{DiagKind, OutOfMemory, Place, Text, Tree};
use std::alloc::Global;

/// The tree of the first object of a type and a full name.
pub fn find_object<'a>(objects: &'a Committed, read: &Read) -> Option<&'a Tree>
    ensures found { IfSome result (λ t. object_in read.now (map shown_object objects.now) ≡ Some (tree_view t.now)) }
    ensures absent { IfNone result (object_in read.now (map shown_object objects.now) ≡ None) }
{
    match objects.find(read.kind.as_str(), read.name.as_str()) {
        Some(object) => Some(&object.tree),
        None => None,
    }
}

/// Whether there is no object of a type and a full name where the view shows none: it says so of the name, or it shows all objects
/// of the type.
pub fn is_absent(view: &WorldView, read: &Read) -> bool
    ensures { result ≡ absent_of (view_of view.now) read.now }
{
    view.known.absent.iter().any(|absent| read.kind == absent.kind && read.name == absent.name)
        || view.known.whole.iter().any(|kind| read.kind == *kind)
}

/// `get_host(name)`
pub fn read_host(
    work: &mut Work,
    view: &WorldView,
    place: Place,
    args: &[Value],
) -> Result<Value, Stop>
    requires { IsFit work.old }
    ensures gives { Gives (λ v. v) result (state_of work.new) (host_read (view_of view.now) place args.now (state_of work.old)) }
    ensures kept { IfOk result (IsKept work.old work.new) }
{
    match args {
        [Value::Str(name)] => {
            let read = read_of_host(work.alloc, name)?;
            read_object(work, view, place, read)
        }
        [_] => Err(fault(work.alloc, place, DiagKind::WrongType)),
        _ => Err(fault(work.alloc, place, DiagKind::Arity)),
    }
}

/// `get_service(host, name)`
pub fn read_service(
    work: &mut Work,
    view: &WorldView,
    place: Place,
    args: &[Value],
) -> Result<Value, Stop>
    requires { IsFit work.old }
    ensures gives { Gives (λ v. v) result (state_of work.new) (service_read (view_of view.now) place args.now (state_of work.old)) }
    ensures kept { IfOk result (IsKept work.old work.new) }
{
    match args {
        [Value::Str(host), Value::Str(name)] => {
            let read = read_of_service(work.alloc, host, name)?;
            read_object(work, view, place, read)
        }
        [_, _] => Err(fault(work.alloc, place, DiagKind::WrongType)),
        _ => Err(fault(work.alloc, place, DiagKind::Arity)),
    }
}

/// Reads an object.
fn read_object(work: &mut Work, view: &WorldView, place: Place, read: Read) -> Result<Value, Stop>
    requires { IsFit work.old }
    ensures gives { Gives (λ v. v) result (state_of work.new) (read_of (view_of view.now) place read (state_of work.old)) }
    ensures kept { IfOk result (IsKept work.old work.new) }
{
    match find_object(view.objects, &read) {
        Some(tree) => {
            work.reads.push(read)?;
            load(work, place, tree)
        }
        None => {
            if !is_absent(view, &read) {
                return Err(Stop::Blocked(read));
            }
            work.reads.push(read)?;
            Ok(Value::Null)
        }
    }
}

/// Makes a tree, which is charged before.
fn load(work: &mut Work, place: Place, tree: &Tree) -> Result<Value, Stop>
    requires { IsFit work.old }
    ensures gives { Gives (λ v. v) result (state_of work.new) (tree_loaded place (tree_view tree.now) (state_of work.old)) }
    ensures kept { IfOk result (IsKept work.old work.new) }
{
    let units = tree_cost(work.alloc, tree)?;
    work.charge(place, units)?;
    Ok(work.store.load_tree(tree)?)
}

/// What is read of a host (Icinga 2 documentation, Library Reference, get_host).
pub fn read_of_host(alloc: Global, name: &Text) -> Result<Read, OutOfMemory>
    ensures { IfOk result (λ r. r ≡ host name.now) }
{
    Ok(Read {
        kind: Text::copy_of(alloc, "Host")?,
        name: name.clone()?,
    })
}

fn read_of_service(alloc: Global, host: &Text, name: &Text) -> Result<Read, OutOfMemory>
    ensures { IfOk result (λ r. r ≡ service host.now name.now) }
{
    let mut full = host.clone()?;
    full.push('!')?;
    full.push_str(name.as_str())?;
    Ok(Read {
        kind: Text::copy_of(alloc, "Service")?,
        name: full,
    })
}
