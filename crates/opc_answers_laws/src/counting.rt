//! Laws on who counts in notes; each law is what a call without a body ensures.
ghost use Rattle.opc_answers_laws.specs.CountingLaws.{NotedUnlessActing, RevokedUsersCountAsNeither};

/// A user has no note N03 exactly if a digest is stored, the user is revoked, or an AUTO console has this name.
pub fn noted_unless_acting()
    ensures { NotedUnlessActing }
{}

/// A revoked user counts neither as SPECIAL nor as AUDITOR.
pub fn revoked_users_count_as_neither()
    ensures { RevokedUsersCountAsNeither }
{}
