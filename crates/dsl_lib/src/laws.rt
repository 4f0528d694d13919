// Laws of the library's definitions.
ghost use Rattle.std.specs.Prelude.{◌≡◌, ◌<◌, ℕ, ℤ, List, [], encode_utf8, length};
ghost use Rattle.std.specs.Char.{IsScalar};
ghost use Rattle.std.specs.Ordering.{int_cmp};
ghost use Rattle.std.specs.Str.{IsUtf8};
ghost use Rattle.std.specs.List.Sorted.{IsPermutation};
ghost use Rattle.dsl_value.specs.Pairs.{key_cmp};
ghost use Rattle.dsl_value.specs.Contents.{PlainCell};
ghost use Rattle.dsl_value.specs.declared.value.Value.{Value};
ghost use Rattle.dsl_lib.specs.Arrays.{joined, sorted};
ghost use Rattle.dsl_lib.specs.Laws.{Rises, AreApart, IsDistinct, IsReplaced};
ghost use Rattle.dsl_lib.specs.Sets.{distinct};
ghost use Rattle.dsl_lib.specs.Texts.{pieces, replaced};

/// What `sort` gives has the elements that it was given, and none is greater than one behind it.
pub fn sorted_elements_rise()
    ensures same_texts { (ts : List (List ℕ)) → IsPermutation ts (sorted key_cmp ts) }
    ensures texts_rise { (ts : List (List ℕ)) → Rises key_cmp (sorted key_cmp ts) }
    ensures same_numbers { (ns : List ℤ) → IsPermutation ns (sorted int_cmp ns) }
    ensures numbers_rise { (ns : List ℤ) → Rises int_cmp (sorted int_cmp ns) }
{}

/// `union` and `intersection` take each element unless one that they took is equal to it, and so no two that they give
/// are equal.
pub fn distinct_elements_are_apart()
    ensures taken { (cells : List PlainCell) (vs : List Value) → IsDistinct cells [] vs (distinct cells [] vs) }
    ensures apart { (cells : List PlainCell) (vs : List Value) → AreApart cells (distinct cells [] vs) }
{}

/// What `replace` gives has each part replaced, from left to right, and nothing else has.
pub fn parts_are_replaced_from_left_to_right()
    ensures is { (t part by : List ℕ) → 0 < length part → IsReplaced part by t (replaced t part by) }
    ensures only { (t part by out : List ℕ) → 0 < length part → IsReplaced part by t out → out ≡ replaced t part by }
{}

/// The pieces that `split` cuts a text into at one character, joined by that character, are the text.
pub fn pieces_join_to_the_text()
    ensures { (t : List ℕ) (c : ℕ) → IsUtf8 t → IsScalar c → joined (encode_utf8 c) (pieces t (encode_utf8 c)) ≡ t }
{}
