//! The best of the candidates.
ghost use Rattle.std.specs.Prelude.{◌≡◌, ◌||◌, map, not, option_map};
ghost use Rattle.std.specs.Ordering.{is_lt};
ghost use Rattle.semver.specs.Identifiers.{parts_of};
ghost use Rattle.edit_version.specs.Greatest.{advance, pick};
ghost use Rattle.edit_version.specs.VersionOrder.{full_order};
ghost use Rattle.edit_lock_bounds.specs.Choices.{best, candidate_order, greatest};
ghost use Rattle.edit_lock_bounds.specs.Views.{candidate_view};

use crate::candidates::Candidate;
use semver::Version;

/// Whether a version comes before another in the full order.
fn is_below(version: &Version, other: &Version) -> bool
    ensures { result ≡ is_lt (full_order (parts_of version.now) (parts_of other.now)) }
{
    version < other
}

/// The later of two candidates that is not below the other.
fn greater_of<'c, 'a>(best: Option<&'c Candidate<'a>>, next: &'c Candidate<'a>) -> &'c Candidate<'a>
    ensures { candidate_view result.now ≡ pick candidate_order
        (option_map (λ c. candidate_view c.now) best.entry) (candidate_view next.entry.now) }
{
    match best {
        Some(old) => {
            if is_below(&next.version, &old.version) {
                old
            } else {
                next
            }
        }
        None => next,
    }
}

/// The greatest candidate so far, after one more.
fn with_next<'c, 'a>(
    best: Option<&'c Candidate<'a>>,
    next: &'c Candidate<'a>,
    only_chosen: bool,
) -> Option<&'c Candidate<'a>>
    ensures { option_map (λ c. candidate_view c.now) result ≡ advance
        (λ c. not only_chosen || c.is_chosen) candidate_order
        (option_map (λ c. candidate_view c.now) best.entry) (candidate_view next.entry.now) }
{
    if only_chosen && !next.is_chosen {
        return best;
    }
    Some(greater_of(best, next))
}

/// The greatest of the candidates, or of those that were chosen; the last of equal ones.
fn greatest<'c, 'a>(candidates: &'c [Candidate<'a>], only_chosen: bool) -> Option<&'c Candidate<'a>>
    ensures { option_map (λ c. candidate_view c.now) result
        ≡ greatest (λ c. not only_chosen || c.is_chosen) (map candidate_view candidates.entry.now) }
{
    let mut best = None;
    'candidates: for candidate in candidates {
        best = with_next(best, candidate, only_chosen);
    }
    best
}

/// The best of the candidates: the greatest of those that were chosen, else the greatest of all.
pub(crate) fn best<'c, 'a>(candidates: &'c [Candidate<'a>]) -> Option<&'c Candidate<'a>>
    ensures { option_map (λ c. candidate_view c.now) result ≡ best (map candidate_view candidates.entry.now) }
{
    match greatest(candidates, true) {
        Some(candidate) => Some(candidate),
        None => greatest(candidates, false),
    }
}
