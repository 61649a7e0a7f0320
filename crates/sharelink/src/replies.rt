// The last replies to each leaf, by the leaf's place.
ghost use Rattle.std.specs.Prelude.{◌≡◌, ◌<◌, ◌≤◌, ℕ, length, true, IfOk, IfErr};
ghost use Rattle.std.specs.List.{AllByRecursion};
ghost use Rattle.std.specs.Option.{option_copied};
ghost use Rattle.botjournal.specs.Bases.{IsGoodReply, IsGoodAnswer};
ghost use Rattle.botjournal.specs.declared.TheConstants.{WINDOW};
ghost use Rattle.protocol.specs.Numbers.{item_at};
ghost use Rattle.protocol.specs.HubRules.{with_reply};
ghost use Rattle.protocol.specs.Journals.{replies_among, replies_of, replies_in, is_next, is_next_of};

use crate::leaf_replies::LeafReplies;
use botjournal::{Reply, Verdict};
use bytetext::NoMemory;
use std::alloc::Global;

// Returns the replies to a leaf among those of a base.
fn replies_among(leaf: u16, replies: &[Reply]) -> LeafReplies
    requires few { length (replies_among leaf replies.now) ≤ WINDOW }
    ensures { result ≡ replies_among leaf replies.now }
{
    let mut kept = LeafReplies::none();
    for reply in replies {
        if reply.leaf == leaf {
            kept.put(*reply);
        }
    }
    kept
}

// Returns a place for each leaf, with the replies of a base.
pub(crate) fn replies_of(
    alloc: Global,
    leaves: u16,
    replies: &[Reply],
) -> Result<Vec<LeafReplies>, NoMemory>
    requires few { (leaf : ℕ) → length (replies_among leaf replies.now) ≤ WINDOW }
    ensures placed { IfOk result (λ held. held.items ≡ replies_of 1 leaves replies.now) }
    ensures memory { IfErr result (λ _. 0 < leaves) }
{
    let mut held = Vec::new(alloc);
    for place in 0..leaves {
        held.push(replies_among(place + 1, replies))?;
    }
    Ok(held)
}

// Returns all replies that are kept.
pub(crate) fn replies_in(alloc: Global, held: &[LeafReplies]) -> Result<Vec<Reply>, NoMemory>
    ensures replies { IfOk result (λ replies. replies.items ≡ replies_in held.now) }
    ensures memory { IfErr result (λ _. 0 < length (replies_in held.now)) }
{
    let mut replies = Vec::new(alloc);
    for kept in held {
        replies.extend_from_slice(kept.as_slice())?;
    }
    Ok(replies)
}

// Returns the last replies to a leaf that has a place.
pub(crate) fn replies_at(held: &[LeafReplies], leaf: u16) -> Option<&LeafReplies>
    ensures { option_copied result ≡ item_at held.now leaf }
{
    if leaf == 0 {
        return None;
    }
    held.get(leaf as usize - 1)
}

// Whether this is the next request of a leaf that has a place.
pub(crate) fn is_next_of(kept: Option<&LeafReplies>, request: u32) -> bool
    ensures { result ≡ is_next_of (option_copied kept.entry) request }
{
    match kept {
        Some(kept) => request != 0 && request - 1 == kept.last_request(),
        None => false,
    }
}

// Whether this is a leaf's next request, or a change of the hub's own, which has number 0.
pub(crate) fn is_next(held: &[LeafReplies], leaf: u16, request: u32) -> bool
    ensures { result ≡ is_next held.now leaf request }
{
    if leaf == 0 {
        request == 0
    } else {
        is_next_of(replies_at(held, leaf), request)
    }
}

// Appends the reply to a leaf's next request to those that are kept; the hub's own changes have none. Allocates
// nothing.
pub(crate) fn put_reply(held: &mut Vec<LeafReplies>, leaf: u16, request: u32, answer: Verdict)
    requires { is_next held.old.items leaf request ≡ true }
    ensures { held.new.items ≡ with_reply held.old.items leaf answer }
{
    if leaf == 0 {
        return;
    }
    let place = leaf as usize - 1;
    if place < held.len() {
        held[place].put(Reply {
            leaf,
            request,
            answer,
        });
    }
}

// What the types of replies say of their fields. It does nothing at run time.
pub(crate) fn know_replies(replies: &[Reply])
    ensures { AllByRecursion IsGoodReply replies.now }
{
    match replies {
        [] => {}
        [reply, rest @ ..] => {
            know_reply(reply);
            know_replies(rest);
        }
    }
}

fn know_reply(reply: &Reply)
    ensures { IsGoodReply reply.now }
{
    let _leaf = reply.leaf;
    let _request = reply.request;
    know_answer(&reply.answer);
}

fn know_answer(answer: &Verdict)
    ensures { IsGoodAnswer answer.now }
{
    match answer {
        Verdict::Taken(number) => {
            let _number = *number;
        }
        Verdict::Refused(_) => {}
    }
}
