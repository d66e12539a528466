//! A policy that a program of C keeps between its calls.
#![tactic(auto)]

ghost use Rattle.std.specs.Prelude.{◌≡◌, ℕ, List, Option, None, Some, option_map};
ghost use Rattle.std.specs.Coded.{coded_option, coded_list, coded_ℕ};
ghost use Rattle.opc_kept.specs.Keeping.{keeps};

mod loose;

use loose::Loose;
use opc_embedded::kept::KeptPolicyText;
use std::alloc::Global;
use std::marker::Model;
use std::ptr::null_mut;

/// What C holds of a policy that is kept (`opcmds_kept` of the header): a pointer that it never follows. Nothing is
/// kept, if all its bytes are zero. `text` is that of the policy.
#[repr(C)]
pub struct PolicyHandle {
    // (no `*mut KeptPolicyText`, since no export may have a type that points to a `Vec`)
    at: *mut u8,
    alloc: Global,
    pub ghost text: { Option (List ℕ) } by { coded_option (coded_list coded_ℕ) },
}

impl Model for PolicyHandle {
    ghost also_owns = { λ kept. keeps kept.alloc kept.at kept.text };
}

impl PolicyHandle {
    /// Nothing is kept.
    pub fn none(alloc: Global) -> Self
        ensures { result.text ≡ None }
    {
        PolicyHandle {
            at: null_mut(),
            alloc,
        }
    }

    fn of_loose(loose: Loose<KeptPolicyText, Global>) -> Self
        ensures { result.text ≡ Some loose.value }
    {
        let Loose { at, alloc } = loose;
        PolicyHandle {
            at: at as *mut u8,
            alloc,
        }
    }

    fn into_loose(self) -> Option<Loose<KeptPolicyText, Global>>
        ensures { option_map (λ loose. loose.value) result ≡ self.text }
    {
        let PolicyHandle { at, alloc } = self;
        if at.is_null() {
            None
        } else {
            Some(Loose {
                at: at as *mut KeptPolicyText,
                alloc,
            })
        }
    }

    /// A policy is kept.
    pub fn of(policy: Box<KeptPolicyText>) -> Self
        ensures { result.text ≡ Some policy.value }
    {
        PolicyHandle::of_loose(Loose::of(policy))
    }

    /// The policy that was kept, if one was.
    pub fn into_box(self) -> Option<Box<KeptPolicyText>>
        ensures { option_map (λ policy. policy.value) result ≡ self.text }
    {
        match self.into_loose() {
            None => None,
            Some(loose) => Some(loose.into_box()),
        }
    }
}

impl Drop for PolicyHandle {
    fn drop(self) {
        let _policy = self.into_box();
    }
}

// So a program of C may pass it from thread to thread.
unsafe impl Send for PolicyHandle {}
