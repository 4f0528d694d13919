// Whole commits of small sites.
ghost use Rattle.std.specs.Prelude.{◌≡◌, [], ◌∷◌, codes};
ghost use Rattle.commit_meaning.specs.Commits.{site};
ghost use Rattle.commit_examples.specs.Sites.{command_row, disk_row, disks_row, host_row, listing_of, on_disks, twice};

/// Objects are committed by their waves and numbers, in whatever order their items stand; two of one name are two objects here.
pub fn two_hosts_of_one_name()
    ensures { listing_of twice ≡ site (command_row ∷ host_row (codes "a") ∷ host_row (codes "a") ∷ []) }
{}

/// A rule makes a service for each pair of a host's dictionary, which sees the key and the value.
pub fn services_for_disks()
    ensures { listing_of on_disks ≡ site (command_row ∷ disks_row ∷ disk_row (codes "h!d-a") (codes "d-a") (codes "2") ∷ disk_row (codes "h!d-b") (codes "d-b") (codes "1") ∷ []) }
{}
