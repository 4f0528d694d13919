// The templates of a load.
ghost use Rattle.std.specs.Prelude.{◌≡◌, ◌++◌, [], ◌∷◌, map, OnOk, OnErr, IfSome, IfNone, Some, None};
ghost use Rattle.eval_meaning.specs.Views.{template_in};
ghost use Rattle.eval_work.specs.Works.{plain_template};

use crate::Template;
use crate::places::Places;
use site_base::OutOfMemory;
use std::alloc::Global;
use std::marker::Model;

/// Templates in the order in which they were registered, of which the first of each type and name is found by hash. Clauses see
/// them as their list.
#[derive(Drop)]
pub struct Templates {
    templates: Vec<Template>,
    places: Places,
}

impl Model for Templates {
    ghost use Rattle.std.specs.Prelude.{List, map};
    ghost use Rattle.eval_work.specs.declared.template.Template.{Template};
    ghost use Rattle.eval_work.specs.Lists.{template_key};
    ghost use Rattle.eval_work.specs.Placing.{AreFirst};
    ghost use Rattle.dsl_syntax.specs.contracts.block.Block as block;
    ghost use Rattle.std.specs.Coded.{codes};

    ghost Value = { List Template };

    ghost coded = { Prim.hlevel (codes, block.the_row.coded) };

    ghost view = { λ t. t.templates.items };

    ghost invariant = { λ t. AreFirst t.places (map template_key t.templates.items) };
}

impl Templates {
    /// No templates, which take no memory.
    pub fn new(alloc: Global) -> Templates
        ensures { result ≡ [] }
    {
        Templates {
            templates: Vec::new(alloc),
            places: Places::new(alloc),
        }
    }

    /// Adds a template behind the others. After an error they are as before.
    pub fn add(&mut self, template: Template) -> Result<(), OutOfMemory>
        ensures ok { OnOk result (self.new ≡ self.old ++ template ∷ []) }
        ensures err { OnErr result (self.new ≡ self.old) }
    {
        self.templates.reserve(1)?;
        let place = self.templates.len();
        self.places.add(&template.kind, &template.name, place)?;
        self.templates.push(template)?;
        Ok(())
    }

    /// The first template of a type and a name.
    pub fn find(&self, kind: &str, name: &str) -> Option<&Template>
        ensures found { IfSome result (λ t. template_in kind.now name.now (map plain_template self.now) ≡ Some (plain_template t.now)) }
        ensures absent { IfNone result (template_in kind.now name.now (map plain_template self.now) ≡ None) }
    {
        match self.places.find(kind, name) {
            Some(place) => self.templates.get(place),
            None => None,
        }
    }

    /// The templates in the order in which they were registered.
    pub fn as_slice(&self) -> &[Template]
        ensures { result.now ≡ self.now }
    {
        &self.templates
    }
}
