// The trees of files.
ghost use Rattle.std.specs.Prelude.{length};
ghost use Rattle.dsl_lexer.specs.Lists.{IsWhole};
ghost use Rattle.dsl_grammar.specs.Files.{file_outcome};
ghost use Rattle.dsl_grammar.specs.Parsing.{Answers, GivesTree, IsShallow, GivesOnly, GivesFault};

use crate::blocks::statements;
use dsl_depth::too_deep;
use dsl_grammar::ParseError;
use dsl_lexer::Token;
use dsl_next::next::place_of;
use dsl_next::stop::Stop;
use dsl_statements::leads::Within;
use dsl_syntax::File;
use std::alloc::Global;

/// The one tree of a file's tokens, of which the last is the end token and no other is, and the places rise: what `lex`
/// gives (Icinga 2 documentation, Language Reference). Each node has the place of its first token.
///
/// `SyntaxFault` at the first token, the end included, such that the tokens before it begin a file and with it they begin
/// none. `TooDeep` at the first token through which more than 100 brackets are open, or on which more than 200 tokens weigh,
/// where that isn't behind the other place. `OutOfMemory` if there is no memory for the tree.
pub fn parse(alloc: Global, tokens: &[Token]) -> Result<File, ParseError>
    requires { IsWhole tokens.now }
    ensures tree { GivesTree tokens.now result }
    ensures shallow { IsShallow tokens.now result }
    ensures only { GivesOnly tokens.now result }
    ensures fault { GivesFault tokens.now result }
    ensures value { Answers (file_outcome tokens.now) result }
{
    outcome_of(alloc, tokens)
}

/// What is read of a file's tokens: up to the first that stands too deep, or up to the end.
fn outcome_of(alloc: Global, tokens: &[Token]) -> Result<File, ParseError>
    requires { IsWhole tokens.now }
    ensures { Answers (file_outcome tokens.now) result }
{
    let deep = too_deep(alloc, tokens)?;
    let cut = match deep {
        Some(index) => index,
        None => tokens.len() - 1,
    };
    let (front, from) = tokens.split_at(cut);
    match statements(alloc, tokens.len(), Within::File, front) {
        Ok((_, [next, ..])) | Err(Stop::Fault([next, ..])) => Err(ParseError::SyntaxFault {
            place: next.place,
        }),
        Ok((statements, [])) => match deep {
            Some(_) => Err(ParseError::TooDeep {
                place: place_of(from),
            }),
            None => Ok(File { statements }),
        },
        Err(Stop::Fault([])) => match deep {
            Some(_) => Err(ParseError::TooDeep {
                place: place_of(from),
            }),
            None => Err(ParseError::SyntaxFault {
                place: place_of(from),
            }),
        },
        Err(Stop::Memory) => Err(ParseError::OutOfMemory),
    }
}
