//! What queries of the account ask for, and which codes its rows may have, each as what a call without a body ensures.
ghost use Rattle.opc_account.specs.Codes.{CodesAreKnown};
ghost use Rattle.opc_account.specs.Laws.{CodesMeanSo, FiltersMeanSo, RowsAreCountedSo};

/// A query may name the code of each fault, and of what only a warning let pass.
pub fn codes_are_known()
    ensures { CodesAreKnown }
{}

/// A row meets a filter if and only if it is in the time, both ends with it, of the user and at the console that are
/// named, and of one of the codes: a code is itself, and a beginning before `*` each that begins so.
pub fn filters_mean_so()
    ensures filters { FiltersMeanSo }
    ensures codes { CodesMeanSo }
{}

/// The last rows are as many as asked for, and from a number on, the rows are that one and those after it.
pub fn rows_are_counted()
    ensures { RowsAreCountedSo }
{}
