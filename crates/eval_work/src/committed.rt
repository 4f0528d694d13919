// The objects that were committed.
ghost use Rattle.std.specs.Prelude.{◌≡◌, ◌++◌, [], ◌∷◌, OnOk, OnErr, IfSome, IfNone, Some, None};
ghost use Rattle.eval_work.specs.Lists.{object_at};

use crate::places::Places;
use site_base::OutOfMemory;
use site_model::Object;
use std::alloc::Global;
use std::marker::Model;

/// Objects in committed order, of which the first of each type and full name is found by hash. Clauses see them as their
/// list.
#[derive(Drop)]
pub struct Committed {
    objects: Vec<Object>,
    places: Places,
}

impl Model for Committed {
    ghost use Rattle.std.specs.Prelude.{List, map};
    ghost use Rattle.site_model.specs.declared.object.Object.{Object};
    ghost use Rattle.eval_work.specs.Lists.{object_key};
    ghost use Rattle.eval_work.specs.Placing.{AreFirst};
    ghost use Rattle.site_base.specs.contracts.tree.Tree as tree;
    ghost use Rattle.std.specs.Coded.{codes};

    ghost Value = { List Object };

    ghost coded = { Prim.hlevel (codes, tree.the_row.coded) };

    ghost view = { λ c. c.objects.items };

    ghost invariant = { λ c. AreFirst c.places (map object_key c.objects.items) };
}

impl Committed {
    /// No objects, which take no memory.
    pub fn new(alloc: Global) -> Committed
        ensures { result ≡ [] }
    {
        Committed {
            objects: Vec::new(alloc),
            places: Places::new(alloc),
        }
    }

    /// Adds an object behind the others. After an error they are as before.
    pub fn add(&mut self, object: Object) -> Result<(), OutOfMemory>
        ensures ok { OnOk result (self.new ≡ self.old ++ object ∷ []) }
        ensures err { OnErr result (self.new ≡ self.old) }
    {
        self.objects.reserve(1)?;
        let place = self.objects.len();
        self.places.add(&object.kind, &object.name, place)?;
        self.objects.push(object)?;
        Ok(())
    }

    /// The first object of a type and a full name.
    pub fn find(&self, kind: &str, name: &str) -> Option<&Object>
        ensures found { IfSome result (λ o. object_at kind.now name.now self.now ≡ Some o.now) }
        ensures absent { IfNone result (object_at kind.now name.now self.now ≡ None) }
    {
        match self.places.find(kind, name) {
            Some(place) => self.objects.get(place),
            None => None,
        }
    }

    /// The objects in committed order.
    pub fn as_slice(&self) -> &[Object]
        ensures { result.now ≡ self.now }
    {
        &self.objects
    }

    pub fn into_vec(self) -> Vec<Object>
        ensures { result.items ≡ self }
    {
        self.objects
    }
}
