// Laws of the order of arguments.
ghost use Rattle.std.specs.Prelude.{◌≡◌, ℤ, false, int_lt, AllPairs, IsPermutation};
ghost use Rattle.site_base.specs.Data.{Pairs};
ghost use Rattle.command_macros.specs.Orders.{in_order, order_of};
ghost use Rattle.command_macros.specs.Stands.{listed, of_order};

/// Each argument of a dictionary has one place among those in order. None stands behind one with a greater order, and those with
/// the same order stand as the dictionary lists them, by their keys.
pub fn arguments_stand_in_order()
    ensures same { (ps : Pairs) → IsPermutation (listed ps) (in_order ps) }
    ensures order { (ps : Pairs) → AllPairs (λ a b. int_lt (order_of b.1) (order_of a.1) ≡ false) (in_order ps) }
    ensures keys { (n : ℤ) (ps : Pairs) → of_order n (in_order ps) ≡ of_order n (listed ps) }
{}
