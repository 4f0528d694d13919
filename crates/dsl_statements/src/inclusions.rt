// Inclusions of other files.
ghost use Rattle.std.specs.Prelude.{◌≡◌, ◌≤◌, [], ◌∷◌, codes, length};
ghost use Rattle.dsl_lexer.specs.declared.sign.Sign.TheVariants as signs;
ghost use Rattle.dsl_rules.specs.Reading.{one_read};
ghost use Rattle.dsl_next.specs.Gives.{Gives};
ghost use Rattle.dsl_grammar.specs.Codes.{sorts, string_sort};
ghost use Rattle.dsl_grammar.specs.Grammar.{AngledName, Dashed, Included, IncludedAll, Inclusion, LibraryName, included as included_plain, included_library, included_all as included_all_plain, located};
ghost use Rattle.dsl_statements.specs.NamedView.{located_view};
ghost use Rattle.dsl_grammar.specs.Reading.{read_by};
ghost use Rattle.dsl_grammar.specs.Terms.{STRING, behind, maybe, sign as sign_plain, text};
ghost use Rattle.dsl_syntax.specs.SyntaxView.{stmt_kind_view};

use dsl_lexer::{Sign, Token, TokenKind, Word};
use dsl_next::next::{after_first, at_sign, at_string, at_word, ident, sign, string, word};
use dsl_next::stop::Stop;
use dsl_syntax::StmtKind;
use site_base::{Place, Text};
use std::alloc::Global;

/// A name, and where it is written.
#[derive(Drop)]
pub struct Located {
    pub place: Place,
    pub name: Text,
}

/// An inclusion of one file or of all files of a folder.
#[tactic(auto, unfolding(dsl_grammar::specs::Grammar::Inclusion, dsl_grammar::specs::Grammar::Included))]
pub fn inclusion<'a>(
    alloc: Global,
    most: usize,
    tokens: &'a [Token],
) -> Result<(StmtKind, &'a [Token]), Stop<'a>>
    requires { length tokens.now ≤ most }
    ensures { Gives stmt_kind_view result (read_by most Inclusion tokens.now) }
{
    if at_word(Word::Include, tokens) {
        return included(most, tokens);
    }
    included_all(alloc, most, tokens)
}

/// One file: `"include" STRING | "include" "<" IDENT { "-" IDENT } ">"`.
#[tactic(auto, unfolding(dsl_grammar::specs::Grammar::Included, dsl_grammar::specs::Grammar::LocatedString))]
fn included<'a>(most: usize, tokens: &'a [Token]) -> Result<(StmtKind, &'a [Token]), Stop<'a>>
    requires { length tokens.now ≤ most }
    ensures { Gives stmt_kind_view result (read_by most Included tokens.now) }
{
    let (_, begin) = word(Word::Include, tokens)?;
    if at_string(begin) {
        let (file, rest) = located_string(begin)?;
        return Ok((include_of(file), rest));
    }
    let (library, rest) = library_name(most, begin)?;
    Ok((include_library_of(library), rest))
}

/// All files of a folder: `"include_recursive" STRING [ "," STRING ]`.
#[tactic(auto, unfolding(dsl_grammar::specs::Grammar::IncludedAll, dsl_grammar::specs::Grammar::LocatedString))]
fn included_all<'a>(
    alloc: Global,
    most: usize,
    tokens: &'a [Token],
) -> Result<(StmtKind, &'a [Token]), Stop<'a>>
    requires { length tokens.now ≤ most }
    ensures { Gives stmt_kind_view result (read_by most IncludedAll tokens.now) }
{
    let (_, begin) = word(Word::IncludeRecursive, tokens)?;
    let (folder, begin) = located_string(begin)?;
    let (names, rest) = pattern(alloc, most, begin)?;
    Ok((include_all_of(folder, names), rest))
}

/// Which files of a folder: `[ "," STRING ]`.
fn pattern<'a>(
    alloc: Global,
    most: usize,
    tokens: &'a [Token],
) -> Result<(Text, &'a [Token]), Stop<'a>>
    requires { length tokens.now ≤ most }
    ensures { Gives (λ t. t) result (read_by most (maybe (λ n. n) (codes "*.conf") (behind (sign_plain signs.Comma) STRING)) tokens.now) }
{
    if at_sign(Sign::Comma, tokens) {
        return string(after_first(tokens));
    }
    Ok((Text::copy_of(alloc, "*.conf")?, tokens))
}

/// A library's name, with the place of its `<`: `"<" IDENT { "-" IDENT } ">"`.
#[tactic(auto, unfolding(dsl_grammar::specs::Grammar::LibraryName, dsl_grammar::specs::Grammar::AngledName))]
fn library_name<'a>(most: usize, tokens: &'a [Token]) -> Result<(Located, &'a [Token]), Stop<'a>>
    requires { length tokens.now ≤ most }
    ensures { Gives located_view result (read_by most LibraryName tokens.now) }
{
    let [first, ..] = tokens else {
        return Err(Stop::Fault(tokens));
    };
    let place = first.place;
    let (_, begin) = sign(Sign::Less, tokens)?;
    let (name, end) = dashed_name(most, begin)?;
    let (_, rest) = sign(Sign::Greater, end)?;
    Ok((Located { place, name }, rest))
}

/// A name with dashes: `IDENT { "-" IDENT }`.
#[tactic(auto, unfolding(dsl_grammar::specs::Grammar::Dashed))]
fn dashed_name<'a>(most: usize, tokens: &'a [Token]) -> Result<(Text, &'a [Token]), Stop<'a>>
    requires { length tokens.now ≤ most }
    ensures { Gives (λ t. t) result (read_by most Dashed tokens.now) }
{
    let (mut name, mut rest) = ident(tokens)?;
    for _ in 0..most {
        if !at_sign(Sign::Minus, rest) {
            break;
        }
        let (part, after) = ident(after_first(rest))?;
        name.push('-')?;
        name.push_str(part.as_str())?;
        rest = after;
    }
    Ok((name, rest))
}

/// A string, with its place.
fn located_string<'a>(tokens: &'a [Token]) -> Result<(Located, &'a [Token]), Stop<'a>>
    ensures { Gives located_view result (one_read sorts (string_sort ∷ []) (λ t. located t.place (text t)) tokens.now) }
{
    match tokens {
        [
            Token {
                place,
                kind: TokenKind::Str(value),
            },
            rest @ ..,
        ] => {
            let name = value.clone()?;
            let place = *place;
            Ok((Located { place, name }, rest))
        }
        _ => Err(Stop::Fault(tokens)),
    }
}

/// The inclusion of a file.
fn include_of(file: Located) -> StmtKind
    ensures { stmt_kind_view result ≡ included_plain (located_view file) }
{
    StmtKind::Include {
        name: file.name,
        at: file.place,
    }
}

/// The inclusion of a library.
fn include_library_of(library: Located) -> StmtKind
    ensures { stmt_kind_view result ≡ included_library (located_view library) }
{
    StmtKind::IncludeLib {
        name: library.name,
        at: library.place,
    }
}

/// The inclusion of the files of a folder that have such names.
fn include_all_of(folder: Located, pattern: Text) -> StmtKind
    ensures { stmt_kind_view result ≡ included_all_plain (located_view folder) pattern }
{
    StmtKind::IncludeAll {
        dir: folder.name,
        pattern,
        at: folder.place,
    }
}
