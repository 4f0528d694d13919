// The targets of rules.
ghost use Rattle.std.specs.Prelude.{◌≡◌, map, option_map};
ghost use Rattle.std.specs.Option.{option_to_list};
ghost use Rattle.site_model.specs.PlainSite.{object_view};
ghost use Rattle.apply_rules.specs.Plain.{plain_target};
ghost use Rattle.wave_objects.specs.Targets.{targets_of_one};

use apply_rules::Target;
use eval_work::Committed;
use item_start::text_of;
use object_types::Attribute;
use site_model::Object;

/// An object as a target of rules, if it is one: a service if its host is there.
pub fn target_of<'a>(objects: &'a Committed, object: &'a Object) -> Option<Target<'a>>
    ensures { option_to_list (option_map plain_target result) ≡ targets_of_one (map object_view objects.now) (object_view object.now) }
{
    if object.kind.as_str() != "Service" {
        return Some(Target::Host(object));
    }
    match objects.find("Host", text_of(&object.tree, Attribute::HostName)) {
        Some(host) => Some(Target::Service {
            host,
            service: object,
        }),
        None => None,
    }
}
