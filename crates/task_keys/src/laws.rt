// What keys tell.
ghost use Rattle.std.specs.Prelude.{◌≡◌, ◌↔◌, List, map};
ghost use Rattle.site_model.specs.PlainSite.{PlainObject};
ghost use Rattle.dsl_syntax.specs.Syntax.{Statements};
ghost use Rattle.eval_meaning.specs.Load.{Loaded};
ghost use Rattle.eval_meaning.specs.Registered.{PlainItem, PlainRule};
ghost use Rattle.commit_meaning.specs.Names.{Target};
ghost use Rattle.place_laws.specs.Alike.{AlikeStatements};
ghost use Rattle.kept_tasks.specs.Bare.{Agree, bare_item, bare_rule, bare_target, bare_member, bare_group};
ghost use Rattle.task_keys.specs.LoadKeys.{HaveSameKeys};
ghost use Rattle.task_keys.specs.SyntaxKeys.{statements_key};
ghost use Rattle.task_keys.specs.TaskKeys.{item_key, rule_key, target_key, member_key, groups_key};

/// The keys of two tasks are the same exactly if the tasks are the same but for numbers and places.
///
/// This call does nothing: its contract says so.
pub fn keys_tell_tasks()
    ensures statements { (b c : Statements) → (statements_key b ≡ statements_key c) ↔ AlikeStatements b c }
    ensures items { (i j : PlainItem) → (item_key i ≡ item_key j) ↔ (bare_item i ≡ bare_item j) }
    ensures rules { (r q : PlainRule) → (rule_key r ≡ rule_key q) ↔ (bare_rule r ≡ bare_rule q) }
    ensures targets { (t u : Target) → (target_key t ≡ target_key u) ↔ (bare_target t ≡ bare_target u) }
    ensures members { (o p : PlainObject) → (member_key o ≡ member_key p) ↔ (bare_member o ≡ bare_member p) }
    ensures groups { (gs hs : List PlainItem) → (groups_key gs ≡ groups_key hs) ↔ (map bare_group gs ≡ map bare_group hs) }
{}

/// Two loads agree exactly if their stores and templates have the same keys, one after another.
///
/// This call does nothing: its contract says so.
pub fn keys_tell_loads()
    ensures { (p q : Loaded) → HaveSameKeys p q ↔ Agree p q }
{}
