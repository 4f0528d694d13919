// What a task was told of a world so far.
ghost use Rattle.std.specs.Prelude.{◌≡◌, ◌++◌, [], ◌∷◌, OnOk, Some, None, map};
ghost use Rattle.std.specs.Arc.{arc_value};
ghost use Rattle.site_base.specs.View.{view};
ghost use Rattle.dsl_value.specs.PlainStores.{plain_store};
ghost use Rattle.eval_meaning.specs.Views.{View};
ghost use Rattle.eval_work.specs.Works.{plain_template, shown_object, view_of};
ghost use Rattle.task_reads.specs.Looks.{plain_look, reads_of};
ghost use Rattle.task_reads.specs.Telling.{IsToldOf, looks_told};

use crate::Look;
use dsl_value::Store;
use eval_meaning::Read;
use eval_work::{Committed, Known, Templates, WorldView};
use name_work::is_absent;
use site_base::OutOfMemory;
use site_model::Object;
use std::alloc::Global;

/// The reads of a task that were decided so far: the objects that they found, the names that are absent, and both in their order.
#[derive(Drop)]
pub(crate) struct Told {
    objects: Committed,
    known: Known,
    looks: Vec<Look>,
}

impl Told {
    /// No read is decided.
    pub(crate) fn new(alloc: Global) -> Told
        ensures told { (world : View) → IsToldOf world result }
        ensures looks { looks_told result ≡ [] }
    {
        Told {
            objects: Committed::new(alloc),
            known: Known {
                whole: Vec::new(alloc),
                absent: Vec::new(alloc),
            },
            looks: Vec::new(alloc),
        }
    }

    /// The view with this store and these templates that shows what was told, and no rules and files.
    pub(crate) fn view<'a>(&'a self, store: &'a Store, templates: &'a Templates) -> WorldView<'a>
        ensures view { view_of result ≡ record {
          store = plain_store store.now;
          templates = map plain_template templates.now;
          rules = [];
          objects = map shown_object self.now.objects;
          absent = self.now.known.absent.items;
          whole = self.now.known.whole.items;
          files = [];
        } }
        ensures store { result.store.now ≡ store.now }
        ensures templates { result.templates.now ≡ templates.now }
    {
        WorldView {
            store,
            templates,
            rules: &[],
            objects: &self.objects,
            known: &self.known,
            files: &[],
        }
    }

    /// Decides a read as a world does. A world decides all that tasks ask for, so this gives up nowhere but for memory.
    #[tactic(auto, using(crate::proofs::Telling::read_more))]
    pub(crate) fn decide(&mut self, world: &WorldView, read: Read) -> Result<(), OutOfMemory>
        requires { IsToldOf (view_of world.now) self.old }
        ensures told { OnOk result (IsToldOf (view_of world.now) self.new) }
        ensures reads { OnOk result (reads_of (looks_told self.new) ≡ reads_of (looks_told self.old) ++ read ∷ []) }
    {
        match world.objects.find(read.kind.as_str(), read.name.as_str()) {
            Some(object) => self.show(object, read),
            None => {
                if !is_absent(world, &read) {
                    return Err(OutOfMemory);
                }
                self.lack(read)
            }
        }
    }

    /// The reads, one after another, with what they found.
    pub(crate) fn into_looks(self) -> Vec<Look>
        ensures { map plain_look result.items ≡ looks_told self }
    {
        self.looks
    }

    /// Shows an object that a read found.
    fn show(&mut self, object: &Object, read: Read) -> Result<(), OutOfMemory>
        ensures objects { OnOk result (map shown_object self.new.objects ≡ map shown_object self.old.objects ++ (record { kind = read.kind; name = read.name; tree = view (arc_value object.now.tree) }) ∷ []) }
        ensures known { OnOk result (self.new.known ≡ self.old.known) }
        ensures looks { OnOk result (looks_told self.new ≡ looks_told self.old ++ (record { read = read; tree = Some (view (arc_value object.now.tree)) }) ∷ []) }
    {
        let shown = Object {
            kind: read.kind.clone()?,
            name: read.name.clone()?,
            place: object.place,
            number: object.number,
            builtin: object.builtin,
            tree: object.tree.clone()?,
        };
        self.objects.add(shown)?;
        let tree = Some(object.tree.clone()?);
        self.looks.push(Look { read, tree })?;
        Ok(())
    }

    /// Notes that a read found no object.
    fn lack(&mut self, read: Read) -> Result<(), OutOfMemory>
        ensures objects { OnOk result (self.new.objects ≡ self.old.objects) }
        ensures absent { OnOk result (self.new.known.absent.items ≡ self.old.known.absent.items ++ read ∷ []) }
        ensures whole { OnOk result (self.new.known.whole.items ≡ self.old.known.whole.items) }
        ensures looks { OnOk result (looks_told self.new ≡ looks_told self.old ++ (record { read = read; tree = None }) ∷ []) }
    {
        self.known.absent.push(read.clone()?)?;
        self.looks.push(Look { read, tree: None })?;
        Ok(())
    }
}
