// The library's calls that call no function value.
ghost use Rattle.std.specs.Prelude.{◌≡◌};
ghost use Rattle.dsl_lib.specs.Names.{plain_spelling};

/// A function or a method of the library that calls no function value. A method's first argument is
/// the value that it is called on.
#[derive(Clone, Copy, PartialEq, Eq)]
pub enum Plain {
    /// `match(pattern, value)`
    Match,
    /// `len(value)`
    Len,
    /// `string(value)`
    String,
    /// `number(value)`
    Number,
    /// `bool(value)`
    Bool,
    /// `range(end)`, `range(start, end)`, `range(start, end, step)`
    Range,
    /// `union(array, ..)`
    Union,
    /// `intersection(array, ..)`
    Intersection,
    /// `keys(dictionary)`
    Keys,
    /// `log(value, ..)`
    Log,
    /// `text.len()`
    TextLen,
    /// `text.contains(part)`
    TextContains,
    /// `text.lower()`
    TextLower,
    /// `text.upper()`
    TextUpper,
    /// `text.trim()`
    TextTrim,
    /// `text.replace(part, with)`
    TextReplace,
    /// `text.split(separators)`
    TextSplit,
    /// `text.substr(start, length)`
    TextSubstr,
    /// `array.len()`
    ArrayLen,
    /// `array.contains(value)`
    ArrayContains,
    /// `array.get(index)`
    ArrayGet,
    /// `array.add(value)`
    ArrayAdd,
    /// `array.join(separator)`
    ArrayJoin,
    /// `array.sort()`
    ArraySort,
    /// `dictionary.len()`
    DictLen,
    /// `dictionary.contains(key)`
    DictContains,
    /// `dictionary.get(key)`
    DictGet,
    /// `dictionary.set(key, value)`
    DictSet,
    /// `dictionary.remove(key)`
    DictRemove,
    /// `dictionary.keys()`
    DictKeys,
    /// `dictionary.values()`
    DictValues,
}

impl Plain {
    /// How it is written. A function and a method may be written alike.
    pub fn spelling(self) -> &'static str
        ensures { result.now ≡ plain_spelling self }
    {
        match self {
            Plain::Match => "match",
            Plain::Len | Plain::TextLen | Plain::ArrayLen | Plain::DictLen => "len",
            Plain::String => "string",
            Plain::Number => "number",
            Plain::Bool => "bool",
            Plain::Range => "range",
            Plain::Union => "union",
            Plain::Intersection => "intersection",
            Plain::Keys | Plain::DictKeys => "keys",
            Plain::Log => "log",
            Plain::TextContains | Plain::ArrayContains | Plain::DictContains => "contains",
            Plain::TextLower => "lower",
            Plain::TextUpper => "upper",
            Plain::TextTrim => "trim",
            Plain::TextReplace => "replace",
            Plain::TextSplit => "split",
            Plain::TextSubstr => "substr",
            Plain::ArrayGet | Plain::DictGet => "get",
            Plain::ArrayAdd => "add",
            Plain::ArrayJoin => "join",
            Plain::ArraySort => "sort",
            Plain::DictSet => "set",
            Plain::DictRemove => "remove",
            Plain::DictValues => "values",
        }
    }
}
