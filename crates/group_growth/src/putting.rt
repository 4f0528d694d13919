// Pairs of dictionaries.
ghost use Rattle.std.specs.Prelude.{◌≡◌, ◌≤◌, ◌<◌, length, OnOk};
ghost use Rattle.site_base.specs.View.{view, pairs_view};
ghost use Rattle.commit_meaning.specs.Groups.{with_pair};
ghost use Rattle.group_growth.specs.Adding.{gap_for};

use site_base::{OutOfMemory, Text, Tree};
use std::cmp::Ordering;

/// Puts a pair in under its key, in the order of bytes, in place of the one that has the key.
pub(crate) fn put_pair(
    pairs: &mut Vec<(Text, Tree)>,
    key: Text,
    tree: Tree,
) -> Result<(), OutOfMemory>
    ensures { OnOk result (pairs_view pairs.new.items ≡ with_pair key (view tree) (pairs_view pairs.old.items)) }
{
    let at = gap(pairs, &key);
    if at < pairs.len() && pairs[at].0 == key {
        pairs[at].1 = tree;
    } else {
        pairs.insert(at, (key, tree))?;
    }
    Ok(())
}

/// How many pairs stand before a key.
fn gap(pairs: &[(Text, Tree)], key: &Text) -> usize
    ensures gap { result ≡ gap_for key.now pairs.now }
    ensures within { result ≤ length pairs.now }
{
    let mut at = 0;
    for pair in pairs {
        if key.cmp(&pair.0) != Ordering::Greater {
            return at;
        }
        at += 1;
    }
    at
}
