// A worked query.
ghost use Rattle.std.specs.Prelude.{◌≡◌, ◌++◌, ◌∷◌, [], codes, Some};
ghost use Rattle.site_query.specs.Answers.{answer_text};
ghost use Rattle.site_query.specs.Example.{histories, limit, lines, query, site};
ghost use Rattle.site_query.specs.Lines.{bad_line, lines_text, told};
ghost use Rattle.site_query.specs.Reading.{query_read};

/// The services that aren't OK: a query without a limit tells the one that there is, and one with a limit of none tells none; a
/// second limit is the first line that is bad.
pub fn services_that_are_not_ok()
    ensures read { query_read (lines_text lines) ≡ told query }
    ensures limited { query_read (lines_text (lines ++ limit)) ≡ told (record query { limit = Some 0 }) }
    ensures twice { query_read (lines_text (lines ++ limit ++ limit)) ≡ bad_line 5 }
    ensures unended { query_read (lines_text lines ++ codes "Limit: 0") ≡ bad_line 4 }
    ensures empty { query_read [] ≡ bad_line 1 }
    ensures answer { answer_text site histories 100 query ≡ 34 ∷ codes "h!s" ++ 34 ∷ codes ";2" ++ 10 ∷ [] }
    ensures no_answer { answer_text site histories 100 (record query { limit = Some 0 }) ≡ [] }
{}
