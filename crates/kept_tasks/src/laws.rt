// Laws of kept tasks.
ghost use Rattle.std.specs.Prelude.{◌≡◌, ℕ, List, map};
ghost use Rattle.site_base.specs.declared.diag.Diag.{Diag};
ghost use Rattle.site_model.specs.PlainSite.{PlainObject};
ghost use Rattle.eval_meaning.specs.Load.{Loaded};
ghost use Rattle.eval_meaning.specs.Registered.{PlainItem, PlainRule};
ghost use Rattle.eval_meaning.specs.declared.read.Read.{Read};
ghost use Rattle.commit_meaning.specs.Answers.{made};
ghost use Rattle.commit_meaning.specs.Groups.{group_members};
ghost use Rattle.commit_meaning.specs.Items.{item_answer};
ghost use Rattle.commit_meaning.specs.Names.{Target};
ghost use Rattle.commit_meaning.specs.Rules.{instances};
ghost use Rattle.commit_meaning.specs.Worlds.{world_view};
ghost use Rattle.kept_tasks.specs.Bare.{Agree, bare_group, bare_item, bare_member, bare_rule, bare_target};
ghost use Rattle.kept_tasks.specs.Kept.{IsKeptItem, IsKeptMember, IsKeptPair, groups_for, renewed_instance, renewed_object, standing_view};
ghost use Rattle.kept_tasks.specs.Reads.{AreReadsOf, SeenAlike};

/// Of a task that is kept the answer in the new commit is the one that it had in the old commit, with the new numbers and places: an item
/// makes the object that it made, a rule makes of a target the items that it made, and the groups that take a member are those that took it.
pub fn kept_tasks_answer_as_before()
    ensures item { (phases : List PlainObject → List (List Diag)) (old new : Loaded) (w : ℕ) (j : PlainItem) (kept : IsKeptItem phases old new w j)
        → (o : PlainObject) × (item_answer (standing_view old w) kept.task ≡ made o) × (item_answer (standing_view new w) j ≡ made (renewed_object j o)) }
    ensures pair { (phases : List PlainObject → List (List Diag)) (old new : Loaded) (w : ℕ) (q : PlainRule) (u : Target) (kept : IsKeptPair phases old new w q u)
        → (is : List PlainItem) × (instances (standing_view old w) kept.rule kept.target ≡ made is) × (instances (standing_view new w) q u ≡ made (map (renewed_instance q u) is)) }
    ensures member { (phases : List PlainObject → List (List Diag)) (old new : Loaded) (w : ℕ) (p : PlainObject) (kept : IsKeptMember phases old new w p)
        → (ns : List (List ℕ)) × (group_members (standing_view old w) (groups_for old w kept.member) kept.member ≡ made ns) × (group_members (standing_view new w) (groups_for new w p) p ≡ made ns) }
{}

/// Where two loads agree, tasks that are alike read the same names over objects of which these reads find the same, and what the one makes of the
/// old load the other makes of the new one, with its numbers and places. This holds over whatever objects stand in the two loads.
pub fn tasks_alike_answer_alike()
    ensures item { (old new : Loaded) (os ps : List PlainObject) → Agree old new → (i j : PlainItem) → bare_item i ≡ bare_item j
        → (rs : List Read) → AreReadsOf (λ view. item_answer view i) old os rs → SeenAlike (world_view old os) (world_view new ps) rs
        → AreReadsOf (λ view. item_answer view j) new ps rs × ((o : PlainObject) → item_answer (world_view old os) i ≡ made o → item_answer (world_view new ps) j ≡ made (renewed_object j o)) }
    ensures pair { (old new : Loaded) (os ps : List PlainObject) → Agree old new → (r q : PlainRule) (t u : Target) → bare_rule r ≡ bare_rule q → bare_target t ≡ bare_target u
        → (rs : List Read) → AreReadsOf (λ view. instances view r t) old os rs → SeenAlike (world_view old os) (world_view new ps) rs
        → AreReadsOf (λ view. instances view q u) new ps rs × ((is : List PlainItem) → instances (world_view old os) r t ≡ made is → instances (world_view new ps) q u ≡ made (map (renewed_instance q u) is)) }
    ensures member { (old new : Loaded) (os ps : List PlainObject) → Agree old new → (gs hs : List PlainItem) (o p : PlainObject) → map bare_group gs ≡ map bare_group hs → bare_member o ≡ bare_member p
        → (rs : List Read) → AreReadsOf (λ view. group_members view gs o) old os rs → SeenAlike (world_view old os) (world_view new ps) rs
        → AreReadsOf (λ view. group_members view hs p) new ps rs × ((ns : List (List ℕ)) → group_members (world_view old os) gs o ≡ made ns → group_members (world_view new ps) hs p ≡ made ns) }
{}

/// A task has one list of reads.
pub fn reads_are_told_by_answers()
    ensures item { (load : Loaded) (os : List PlainObject) (i : PlainItem) (rs qs : List Read) → AreReadsOf (λ view. item_answer view i) load os rs → AreReadsOf (λ view. item_answer view i) load os qs → rs ≡ qs }
    ensures pair { (load : Loaded) (os : List PlainObject) (r : PlainRule) (t : Target) (rs qs : List Read) → AreReadsOf (λ view. instances view r t) load os rs → AreReadsOf (λ view. instances view r t) load os qs → rs ≡ qs }
    ensures member { (load : Loaded) (os : List PlainObject) (gs : List PlainItem) (o : PlainObject) (rs qs : List Read) → AreReadsOf (λ view. group_members view gs o) load os rs → AreReadsOf (λ view. group_members view gs o) load os qs → rs ≡ qs }
{}
