// A law of the definitions.
ghost use Rattle.group_growth.specs.Joining.{ObjectsJoin};

/// What an object is once it is in groups (`grown`, commit_meaning), in words of its own: what stood in `groups` stays in front, behind it
/// stand the names of those groups that weren't there, in their order and each once, and nothing else of the object changes.
pub fn objects_join_groups_once()
    ensures { ObjectsJoin }
{}
