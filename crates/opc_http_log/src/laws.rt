//! What a log never shows, and that an exchange is one line of it.
ghost use Rattle.opc_http_log.specs.Laws.{DigestsAreNotShown, ExchangesAreOneLine, PasswordsAreNotShown};

/// The line of an exchange is printable ASCII with one line feed, its last byte.
pub fn exchanges_are_one_line()
    ensures { ExchangesAreOneLine }
{}

/// No line depends on the password of a LOGON.
pub fn passwords_are_not_shown()
    ensures { PasswordsAreNotShown }
{}

/// No line depends on a digest, whether an operation or a batch has it.
pub fn digests_are_not_shown()
    ensures { DigestsAreNotShown }
{}
