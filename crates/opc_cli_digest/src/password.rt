//! Passwords and their digests.
ghost use Rattle.std.specs.Prelude.{◌≡◌, ◌≤◌, IfNone, IfSome, length};
ghost use Rattle.hex.specs.Hex.{encode_lower};
ghost use Rattle.sha2.specs.Sha256.{sha256};
ghost use Rattle.opc_reader_commands.specs.Stretches.{folded};
ghost use Rattle.opc_cli_digest.specs.Passwords.{IsPassword};

use opc_reader_commands::command::Password;
use opc_reader_commands::folded::Folded;
use sha2::{Digest, Sha256};
use std::str;

/// The password on a line, folded to capitals as at LOGON.
#[tactic(auto, using(crate::proofs::Lines::no_password))]
pub(crate) fn password_in(line: &[u8]) -> Option<Password>
    requires { length line.now ≤ 126 }
    ensures is { IfSome result (λ password. password ≡ folded line.now) }
    ensures valid { IfSome result (λ _. IsPassword line.now) }
    ensures no_password { IfNone result (IsPassword line.now → ⊥) }
{
    if !line.is_ascii() {
        return None;
    }
    match str::from_utf8(line) {
        Ok(text) => match Password::read(Folded::of(text).as_str()) {
            Ok(password) => Some(password),
            // It is no password.
            Err(_) => None,
        },
        // ASCII is UTF-8.
        Err(_) => unreachable!(),
    }
}

/// The digits of its SHA-256, which is what the `user` row of a policy file takes, and what LOGON compares.
pub(crate) fn digest_of(password: &Password) -> [u8; 64]
    ensures { result ≡ encode_lower (sha256 password.now) }
{
    let digest = Sha256::digest(password.text().as_bytes());
    let mut digits = [0; 64];
    match hex::encode_to_slice(digest.as_slice(), &mut digits) {
        Ok(()) => digits,
        // 32 bytes have exactly 64 digits.
        Err(_) => unreachable!(),
    }
}
