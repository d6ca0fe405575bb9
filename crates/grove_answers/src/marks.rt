ghost use Rattle.std.specs.Prelude.{◌≡◌, count_by};
ghost use Rattle.marking.specs.Marking.{has_mark};

use marking::Added;

/// How many of the nodes to which this is added have a mark.
pub(crate) fn marks_in(added: &[Added]) -> usize
    ensures { result ≡ count_by (λ a. has_mark a.mark) added.now }
{
    added.iter().filter(|added| added.mark.is_some()).count()
}
