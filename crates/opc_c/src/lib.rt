//! The calls of C: questions about policies.
#![tactic(auto)]

ghost use Rattle.std.specs.Prelude.{◌≡◌, [], IfOk, None, Some, unwrap_or};
ghost use Rattle.opc_embedded.specs.Replies.{IsAsked};
ghost use Rattle.opc_c.specs.Rooms.{IsKept, IsPut, IsReplied, IsReplyPut};

use opc_cli_failures::status::Status;
use opc_embedded::asking::ask;
use opc_embedded::kept::KeptPolicyText;
use opc_embedded::reply::Reply;
use opc_embedded::texts::PolicyTexts;
use opc_kept::PolicyHandle;
use std::alloc::{AllocError, Global};
use std::mem::replace;

/// How long an answer is: its output, and its errors.
#[repr(C)]
#[derive(Drop)]
pub struct OpcmdsLengths {
    pub output: usize,
    pub errors: usize,
}

/// Puts bytes into a room, as many as there is room for.
fn put(bytes: &[u8], room: &mut [u8])
    ensures { IsPut bytes.now room.old room.new }
{
    let count = bytes.len().min(room.len());
    room[..count].copy_from_slice(&bytes[..count]);
}

/// Puts a reply into the rooms of the caller, and returns the number of the status.
fn put_reply(
    reply: &Reply,
    output: &mut [u8],
    errors: &mut [u8],
    lengths: &mut OpcmdsLengths,
) -> u32
    ensures { IsReplyPut reply.now output.old output.new errors.old errors.new lengths.new result }
{
    put(reply.output.inner.as_slice(), output);
    put(reply.errors.inner.as_slice(), errors);
    lengths.output = reply.output.inner.len();
    lengths.errors = reply.errors.inner.len();
    reply.status.number() as u32
}

/// Replies to a question by the text of a policy.
fn reply_into(
    alloc: Global,
    policy: &[u8],
    new: &[u8],
    question: &[u8],
    output: &mut [u8],
    errors: &mut [u8],
    lengths: &mut OpcmdsLengths,
) -> u32
    ensures { IsReplied policy.now new.now question.now output.old output.new errors.old errors.new lengths.new
        result }
{
    let reply = ask(alloc, &PolicyTexts { policy, new }, question);
    put_reply(&reply, output, errors, lengths)
}

/// Answers a question as the program does, if the policy is on its input, and the files of `diff` are the policy and the
/// new one. Each export only passes on: tools/edits judges wrong bodies in copies of a function, and no copy may have an
/// exported name.
#[unsafe(no_mangle)]
pub extern "C" fn opcmds_ask(
    alloc: Global,
    policy: &[u8],
    new: &[u8],
    question: &[u8],
    output: &mut [u8],
    errors: &mut [u8],
    lengths: &mut OpcmdsLengths,
) -> u32
    ensures { IsReplied policy.now new.now question.now output.old output.new errors.old errors.new lengths.new
        result }
{
    reply_into(alloc, policy, new, question, output, errors, lengths)
}

/// What is replied by the policy that is kept or, if none is, by a text of no bytes.
fn reply_kept(alloc: Global, kept: &mut PolicyHandle, new: &[u8], question: &[u8]) -> Reply
    ensures same { kept.new.text ≡ kept.old.text }
    ensures asked { IsAsked (unwrap_or kept.old.text []) new.now question.now result }
{
    match replace(kept, PolicyHandle::none(alloc)).into_box() {
        Some(mut policy) => {
            let reply = policy.ask(alloc, new, question);
            *kept = PolicyHandle::of(policy);
            reply
        }
        None => ask(alloc, &PolicyTexts { policy: b"", new }, question),
    }
}

/// Replies to a question by the policy that is kept.
fn reply_kept_into(
    alloc: Global,
    kept: &mut PolicyHandle,
    new: &[u8],
    question: &[u8],
    output: &mut [u8],
    errors: &mut [u8],
    lengths: &mut OpcmdsLengths,
) -> u32
    ensures same { kept.new.text ≡ kept.old.text }
    ensures replied { IsReplied (unwrap_or kept.old.text []) new.now question.now output.old output.new errors.old
        errors.new lengths.new result }
{
    let reply = reply_kept(alloc, kept, new, question);
    put_reply(&reply, output, errors, lengths)
}

fn boxed(alloc: Global, policy: &[u8]) -> Result<PolicyHandle, AllocError>
    ensures { IfOk result (λ kept. kept.text ≡ Some policy.now) }
{
    Ok(PolicyHandle::of(Box::new(alloc, KeptPolicyText::of(alloc, policy)?)?))
}

fn free(alloc: Global, kept: &mut PolicyHandle)
    ensures { kept.new.text ≡ None }
{
    *kept = PolicyHandle::none(alloc);
}

/// Keeps a policy in the place of what is kept, and returns the number of the status.
fn keep(alloc: Global, policy: &[u8], kept: &mut PolicyHandle) -> u32
    ensures { IsKept policy.now kept.new.text result }
{
    // What was kept goes first, so that there is memory for the new one.
    free(alloc, kept);
    let status = match boxed(alloc, policy) {
        Ok(policy) => {
            *kept = policy;
            Status::Done
        }
        Err(_) => Status::Failed,
    };
    status.number() as u32
}

/// Keeps a policy in the place of what is kept; nothing, if there is no memory.
#[unsafe(no_mangle)]
pub extern "C" fn opcmds_keep(alloc: Global, policy: &[u8], kept: &mut PolicyHandle) -> u32
    ensures { IsKept policy.now kept.new.text result }
{
    keep(alloc, policy, kept)
}

/// Answers a question as `opcmds_ask` does by the policy that is kept.
#[unsafe(no_mangle)]
pub extern "C" fn opcmds_ask_kept(
    alloc: Global,
    kept: &mut PolicyHandle,
    new: &[u8],
    question: &[u8],
    output: &mut [u8],
    errors: &mut [u8],
    lengths: &mut OpcmdsLengths,
) -> u32
    ensures same { kept.new.text ≡ kept.old.text }
    ensures replied { IsReplied (unwrap_or kept.old.text []) new.now question.now output.old output.new errors.old
        errors.new lengths.new result }
{
    reply_kept_into(alloc, kept, new, question, output, errors, lengths)
}

/// Frees what is kept.
#[unsafe(no_mangle)]
pub extern "C" fn opcmds_free(alloc: Global, kept: &mut PolicyHandle)
    ensures { kept.new.text ≡ None }
{
    free(alloc, kept);
}
