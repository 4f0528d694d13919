// Laws of walks.
ghost use Rattle.std.specs.Prelude.{◌≡◌, ◌++◌, ℕ, List};
ghost use Rattle.conf_sources.specs.Sources.{Told};
ghost use Rattle.site_conf.specs.Walks.{walked};
ghost use Rattle.walk_laws.specs.Visits.{of_inclusions, root_faults, told_of, visits};

/// What is told of inclusions is told of those of the tree, in preorder, and of nothing else: `NoFile` and `FileTooLong` of each inclusion of a file that
/// is missing or too long, `IncludeDepth` of each in which more than 50 stand in one another, itself among them, and `TooManyFiles` of the 10,001st, after
/// which nothing is told.
pub fn faults_of_inclusions_are_told_in_preorder()
    ensures { (all : Told) (root : List ℕ) →
        of_inclusions (walked all root).diags ≡ root_faults all (walked all root).sources root ++ told_of all (walked all root).sources (visits all (walked all root).sources root) }
{}
