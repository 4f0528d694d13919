// What always holds of walks over files that are told.
ghost use Rattle.std.specs.Prelude.{◌≡◌, ℕ, List, Some, All, map, slice_get};
ghost use Rattle.site_conf.specs.Findings.{IsTold, IsFinding};
ghost use Rattle.conf_sources.specs.Sources.{Told, content_of, full_name, is_library};
ghost use Rattle.site_conf.specs.Sound.{IsClear};
ghost use Rattle.site_conf.specs.Telling.{IsAnswered, StandInOrder};
ghost use Rattle.site_conf.specs.Walks.{WalkState, walked};
ghost use Rattle.conf_sources.specs.declared.inclusion.Inclusion.{Inclusion};
ghost use Rattle.conf_sources.specs.declared.source.Source.{Source};

use dsl_grammar::files_have_one_outcome;
use dsl_lexer::what_is_read_are_the_tokens;

/// Each file that is met in a walk has its name and its flag. Where no fault is told, its tree is the one that its bytes
/// have by tokens and grammar.
pub fn trees_are_those_of_their_files()
    ensures names { (all : Told) (root : List ℕ) → (walked all root).names ≡ map full_name (walked all root).sources }
    ensures library { (all : Told) (root : List ℕ) → (walked all root).library ≡ map is_library (walked all root).sources }
    ensures trees { (all : Told) (root : List ℕ) → IsClear (walked all root) → (index : ℕ) (source : Source) →
        slice_get (walked all root).sources index ≡ Some source → IsTold all (walked all root) index source }
{
    what_is_read_are_the_tokens();
    files_have_one_outcome();
}

/// Each diagnostic of a walk is of the fault that a file has which was met, or of an inclusion of a missing or too long
/// file, or of one that goes too deep or is one too many.
pub fn each_diagnostic_is_of_a_fault()
    ensures { (all : Told) (root : List ℕ) → All (IsFinding all (walked all root).sources) (walked all root).diags }
{
    what_is_read_are_the_tokens();
    files_have_one_outcome();
}

/// Of each file that was met and isn't too long the tree is there, or a fault of its own text is told.
pub fn each_file_has_its_tree_or_its_fault()
    ensures { (all : Told) (root : List ℕ) (index : ℕ) (source : Source) (bytes : List ℕ) →
        slice_get (walked all root).sources index ≡ Some source → content_of all source ≡ Some bytes →
        IsAnswered (walked all root) index bytes }
{
    what_is_read_are_the_tokens();
    files_have_one_outcome();
}

/// Faults are told in walking order: what is told of an inclusion and of the files in it stands behind all that is told of the
/// inclusions before it, and before all that is told of those after it.
pub fn faults_stand_in_walking_order()
    ensures { (all : Told) (left index : ℕ) (file : List ℕ) (before : List Inclusion) (i : Inclusion)
        (behind : List Inclusion) (s : WalkState) → StandInOrder all left index file before i behind s }
{}
