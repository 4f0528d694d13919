// Names of objects, and the attributes that hold them from the start.
ghost use Rattle.std.specs.Prelude.{◌≡◌, [], ◌∷◌, codes, Some};
ghost use Rattle.site_base.specs.Data as tree;
ghost use Rattle.object_types.specs.declared.object_type.ObjectType.TheVariants as object;
ghost use Rattle.commit_meaning.specs.Names.{full_name_by, own_name, target_presets, host, service};
ghost use Rattle.commit_examples.specs.Objects.{attributes, host_named, service_named};

/// A full name has the names of host and service before it, as far as the object's attributes have them.
pub fn full_names()
    ensures host { full_name_by (Some object.Host) (codes "a") (attributes (codes "x") tree.no_pairs) ≡ codes "a" }
    ensures service { full_name_by (Some object.Service) (codes "s") (service_named 1 (codes "a") (codes "x")).tree ≡ codes "a!s" }
    ensures unset { full_name_by (Some object.Notification) (codes "m") (service_named 1 (codes "a") (codes "x")).tree ≡ codes "a!m" }
    ensures child { full_name_by (Some object.Dependency) (codes "d") (tree.dict (tree.pair (codes "child_host_name") (tree.string (codes "a")) (tree.pair (codes "child_service_name") (tree.string (codes "s")) (tree.pair (codes "host_name") (tree.string (codes "b")) tree.no_pairs)))) ≡ codes "a!s!d" }
{}

/// The name in a statement is what stands behind the last `!` of the full name.
pub fn names_in_statements()
    ensures host { own_name (host_named 1 (codes "a")) ≡ codes "a" }
    ensures service { own_name (service_named 1 (codes "a") (codes "s")) ≡ codes "s" }
{}

/// An instance begins with the names of its target, and a dependency of a service with its host as the parent.
pub fn presets()
    ensures service { target_presets (Some object.Service) (host (host_named 1 (codes "a"))) ≡ (codes "host_name", tree.string (codes "a")) ∷ [] }
    ensures notification { target_presets (Some object.Notification) (service (host_named 1 (codes "a")) (service_named 2 (codes "a") (codes "s"))) ≡ (codes "host_name", tree.string (codes "a")) ∷ (codes "service_name", tree.string (codes "s")) ∷ [] }
    ensures of_host { target_presets (Some object.Dependency) (host (host_named 1 (codes "a"))) ≡ (codes "child_host_name", tree.string (codes "a")) ∷ [] }
    ensures of_service { target_presets (Some object.Dependency) (service (host_named 1 (codes "a")) (service_named 2 (codes "a") (codes "s"))) ≡ (codes "child_host_name", tree.string (codes "a")) ∷ (codes "child_service_name", tree.string (codes "s")) ∷ (codes "parent_host_name", tree.string (codes "a")) ∷ [] }
{}
