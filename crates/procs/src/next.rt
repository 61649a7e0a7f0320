// What follows an occasion.
ghost use Rattle.std.specs.Prelude.{◌≡◌, ◌&&◌, not, ◌==◌, map, length};
ghost use Rattle.std.specs.List.{list_any};
ghost use Rattle.procs.specs.Dispatching.{is_one, is_raw, is_whole, is_word, is_logged, is_silencing, next_of};
ghost use Rattle.procs.specs.Dispatching.{has_raw_one};
ghost use Rattle.procs.specs.Made.{entry_of};

use crate::call_kind::CallKind;
use crate::made_call::MadeCall;
use crate::reply::Code;

// What follows an occasion.
#[derive(Clone, Copy, Debug)]
pub(crate) enum Next {
    // Nothing: a raw proc has answered 1.
    Stop,
    // The next occasion.
    Go {
        // Whether a proc was called for the whole of a text. The text's first word may be the next occasion.
        taken: bool,
    },
}

// Returns what follows an occasion of this kind and these calls.
#[tactic(auto, using(crate::proofs::NextLemmas::has_one_entries, crate::proofs::NextLemmas::length_entries))]
pub(crate) fn next_of(kind: CallKind, calls: &[MadeCall]) -> Next
    ensures { result ≡ next_of kind (map entry_of calls.now) }
{
    if is_raw(kind) && has_one(calls) {
        return Next::Stop;
    }
    Next::Go {
        taken: is_whole(kind) && !calls.is_empty(),
    }
}

// Whether a call has code 1.
fn has_one(calls: &[MadeCall]) -> bool
    ensures { result ≡ list_any (λ m. is_one m.reply.code) calls.now }
{
    calls.iter().any(|made| is_one(made.reply.code))
}

fn is_one(code: Code) -> bool
    ensures { result ≡ is_one code }
{
    match code {
        Code::Zero => false,
        Code::One => true,
    }
}

fn is_raw(kind: CallKind) -> bool
    ensures { result ≡ is_raw kind }
{
    matches!(kind, CallKind::Raw)
}

fn is_whole(kind: CallKind) -> bool
    ensures { result ≡ is_whole kind }
{
    matches!(kind, CallKind::Msgm | CallKind::Pubm)
}

// Whether a kind depends on a text's first word.
pub(crate) fn is_word(kind: CallKind) -> bool
    ensures { result ≡ is_word kind }
{
    matches!(kind, CallKind::Msg | CallKind::Pub)
}

/// Returns whether one of `calls` is a raw call with code 1. After it a line is not applied to the channel state.
#[tactic(auto, using(crate::proofs::NextLemmas::has_raw_one_entries))]
pub fn has_raw_one(calls: &[MadeCall]) -> bool
    ensures { result ≡ has_raw_one (map entry_of calls.now) }
{
    any_raw_one(calls)
}

fn any_raw_one(calls: &[MadeCall]) -> bool
    ensures { result ≡ list_any (λ m. is_raw m.call.kind && is_one m.reply.code) calls.now }
{
    calls
        .iter()
        .any(|made| is_raw(made.call.kind) && is_one(made.reply.code))
}

/// Returns whether a line with these `calls` is logged: no call of a raw, msgm, notc or pubm bind answered 1.
#[tactic(auto, using(crate::proofs::NextLemmas::is_logged_entries))]
pub fn is_logged(calls: &[MadeCall]) -> bool
    ensures { result ≡ is_logged (map entry_of calls.now) }
{
    !has_silencer(calls)
}

// Whether a call keeps its line out of the log.
fn has_silencer(calls: &[MadeCall]) -> bool
    ensures { result ≡ list_any (λ m. is_silencing m.call.kind && is_one m.reply.code) calls.now }
{
    calls.iter().any(|made| is_silencing(made.call.kind) && is_one(made.reply.code))
}

// Whether a code 1 of this kind keeps a line out of the log.
fn is_silencing(kind: CallKind) -> bool
    ensures { result ≡ is_silencing kind }
{
    matches!(
        kind,
        CallKind::Raw | CallKind::Msgm | CallKind::Notc | CallKind::Pubm
    )
}
