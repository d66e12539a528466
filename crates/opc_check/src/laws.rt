//! Laws of judging and applying each row; each law is what a call without a body ensures.
ghost use Rattle.opc_check.specs.Laws.{ObstaclesEndWithTheName, ReadsIfNoneIsBad};

/// A text is a policy file if and only if it has a header and no bad row; otherwise its fault is the first bad row.
pub fn reads_if_none_is_bad()
    ensures { ReadsIfNoneIsBad }
{}

/// Why a row is refused ends with the name that its fault has.
pub fn obstacles_end_with_the_name()
    ensures { ObstaclesEndWithTheName }
{}
