//! Searches among the passed commits, whose numbers rise.
ghost use Rattle.std.specs.Prelude.{◌≡◌};
ghost use Rattle.std.specs.Option.{option_copied};
ghost use Rattle.cert_meaning.specs.State.{Rise, commit_numbered};
ghost use Rattle.cert_meaning.specs.Search.{are_related, commits_below, greatest_related};

use crate::items::CommitItem;
use key_sets::{KeySet, Relation, meet};

/// The commits with lower numbers. It costs a search by halves.
pub(crate) fn commits_below(commits: &[CommitItem], number: u64) -> &[CommitItem]
    requires { Rise commits.now }
    ensures { result.now ≡ commits_below number commits.now }
{
    let count = commits.partition_point(|commit| commit.number < number);
    &commits[..count]
}

/// The commit with this number. It costs a search by halves.
pub(crate) fn commit_numbered(commits: &[CommitItem], number: u64) -> Option<&CommitItem>
    requires { Rise commits.now }
    ensures { option_copied result ≡ commit_numbered number commits.now }
{
    let below = commits_below(commits, number);
    let next = commits.get(below.len())?;
    if next.number == number {
        Some(next)
    } else {
        None
    }
}

/// The greatest commit above a number whose keys are so related to these. It costs the commits
/// above that number.
pub(crate) fn greatest_related(
    relation: Relation,
    commits: &[CommitItem],
    above: u64,
    keys: &KeySet,
) -> Option<u64>
    requires { Rise commits.now }
    ensures { result ≡ greatest_related (are_related relation) commits.now above keys.now }
{
    for commit in commits.iter().rev() {
        if commit.number <= above {
            return None;
        }
        if meet(relation, &commit.keys, keys) {
            return Some(commit.number);
        }
    }
    None
}
