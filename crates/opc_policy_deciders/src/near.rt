//! Of the patterns that come before one, those that may cover what it covers.
ghost use Rattle.std.specs.Prelude.{◌≡◌, All, false};
ghost use Rattle.std.specs.Cmp.Lexicographic.{slice_cmp};
ghost use Rattle.std.specs.Ordering.{is_lt, nat_cmp};
ghost use Rattle.opc_names.specs.Names.{IsPattern};
ghost use Rattle.opc_names.specs.Order.{sort_key};
ghost use Rattle.opc_policy_witness.specs.Ends.{NoneInCommon};
ghost use Rattle.opc_policy_deciders.specs.Near.{AreNear, ComeBefore};

use opc_names::name::Pattern;
use opc_policy_witness::ends::may_share_end;

/// Whether two patterns may cover one resource: it ends in the last characters of both, and it begins with the heads of
/// both, so one head begins with the other.
pub(crate) fn may_meet(pattern: &Pattern, other: &Pattern) -> bool
    requires pattern { IsPattern pattern.now }
    requires other { IsPattern other.now }
    ensures { result ≡ false → NoneInCommon pattern.now other.now }
{
    if !may_share_end(pattern, other) {
        return false;
    }
    let (head, other_head) = (pattern.head().as_bytes(), other.head().as_bytes());
    if head.starts_with(other_head) {
        return true;
    }
    other_head.starts_with(head)
}

/// Whether the sort key of a pattern is below another, or below a head.
pub(crate) fn is_below(pattern: &Pattern, head: &[u8]) -> bool
    ensures { result ≡ is_lt (slice_cmp nat_cmp (sort_key pattern.now) head.now) }
{
    let key = pattern.sort_key();
    key.as_slice().cmp(head).is_lt()
}

/// Those of the patterns before one, in order, that may cover what it covers: their sort keys are not below its head,
/// with which all begins that it covers.
pub(crate) fn near<'a>(pattern: &Pattern, before: &'a [Pattern]) -> &'a [Pattern]
    requires pattern { IsPattern pattern.now }
    requires before { All IsPattern before.now }
    requires order { ComeBefore before.now pattern.now }
    ensures { AreNear pattern.now result.now before.now }
{
    let head = pattern.head().as_bytes();
    let from = before.partition_point(|other| is_below(other, head));
    &before[from..]
}
