// Laws of stores.
ghost use Rattle.std.specs.Prelude.{◌≡◌, ◌+◌, ℕ, [], List};
ghost use Rattle.site_base.specs.Data.{Data};
ghost use Rattle.dsl_value.specs.Contents.{Contents, PlainCell, IsInOrder, cell_at};
ghost use Rattle.dsl_value.specs.Grows.{Grows};
ghost use Rattle.dsl_value.specs.Loads.{cost};
ghost use Rattle.dsl_value.specs.PlainStores.{IsPlainly};
ghost use Rattle.dsl_value.specs.Walks.{most, walk, walked};
ghost use Rattle.dsl_value.specs.declared.value.Value.{Value};

/// A store that stays as it is has grown by nothing, and one that grows and then grows on has grown by both.
pub fn growth_adds_up()
    ensures stays { (store : Contents) → Grows 0 store store }
    ensures goes_on { (more most : ℕ) (first second third : Contents) → Grows more first second → Grows most second third → Grows (more + most) first third }
{}

/// What the calls of a store say holds of the same store with plain syntax in the places of its functions.
pub fn stores_are_plain()
    ensures { IsPlainly }
{}

/// What the walk of [`crate::Store::tree_of`] counts is what [`crate::tree_cost`] gives for the tree.
pub fn trees_cost_what_was_counted()
    ensures { (cells : List PlainCell) → ((k : ℕ) → IsInOrder (cell_at cells k)) → (value : Value) (tree : Data) (units : ℕ) → walk (most + 1) cells [] value 0 ≡ walked tree units → units ≡ cost tree }
{}
