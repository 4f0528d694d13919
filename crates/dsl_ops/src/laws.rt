// Laws of the operators' definitions.
ghost use Rattle.std.specs.Prelude.{◌^◌, ℕ, ℤ, Bool, List, T};
ghost use Rattle.std.specs.Int.{int_shr};
ghost use Rattle.dsl_value.specs.Pairs.{Pairs, is_sorted};
ghost use Rattle.dsl_value.specs.declared.value.Value.{Value};
ghost use Rattle.dsl_ops.specs.Laws.{IsMerged, IsWithout, IsRoundedDown};
ghost use Rattle.dsl_ops.specs.Table.{merged, without};

/// What `+` makes of two dictionaries has the right one's value at each key that it has, and else the left one's.
pub fn right_keys_win()
    ensures { (left right : Pairs) → T (is_sorted left) → T (is_sorted right) → IsMerged left right (merged left right) }
{}

/// What `-` leaves of an array are the elements that equal none of the right one's, in their order.
pub fn equal_elements_go()
    ensures { (same : Value → Value → Bool) (left right : List Value) → IsWithout same right left (without same right left) }
{}

/// A shift to the right divides by a power of 2 and rounds down.
pub fn shifts_round_down()
    ensures { (whole : ℤ) (places : ℕ) → IsRoundedDown whole (2 ^ places) (int_shr whole places) }
{}
