// The last replies to one leaf.
use arrayvec::ArrayVec;
use botjournal::{Reply, WINDOW};
use std::marker::Model;

/// The last replies to a leaf, the oldest first: at most eight, to consecutive requests. They allocate nothing of their
/// own.
#[derive(Drop)]
pub struct LeafReplies {
    replies: ArrayVec<Reply, WINDOW>,
}

impl Model for LeafReplies {
    ghost use Rattle.std.specs.Prelude.{List};
    ghost use Rattle.botjournal.specs.declared.reply.Reply.{Reply};

    ghost Value = { List Reply };

    ghost view = { λ kept. kept.replies.items };
}

impl LeafReplies {
    ghost use Rattle.std.specs.Prelude.{◌≡◌, ◌≤◌, ◌++◌, ◌∷◌, [], length};
    ghost use Rattle.botjournal.specs.declared.TheConstants.{WINDOW};
    ghost use Rattle.protocol.specs.HubRules.{last_request, last_eight, reply_to};

    // Creates a list with no reply yet.
    pub(crate) fn none() -> LeafReplies
        ensures { result ≡ [] }
    {
        LeafReplies {
            replies: ArrayVec::new(),
        }
    }

    /// Returns the replies, the oldest first.
    pub fn as_slice(&self) -> &[Reply]
        ensures kept { result.now ≡ self.now }
        ensures few { length result.now ≤ WINDOW }
    {
        self.replies.as_slice()
    }

    /// Returns the number of the last request that was replied to: 0 before the first.
    pub fn last_request(&self) -> u32
        ensures { result ≡ last_request self.now }
    {
        match self.replies.last() {
            Some(reply) => reply.request,
            None => 0,
        }
    }

    /// Returns the reply to the request of the number `request`, if it is still kept.
    pub fn reply_to(&self, request: u32) -> Option<Reply>
        ensures { result ≡ reply_to request self.now }
    {
        self.as_slice()
            .iter()
            .find(|reply| reply.request == request)
            .copied()
    }

    // Appends a reply; if there are eight, drops the oldest.
    pub(crate) fn put(&mut self, reply: Reply)
        ensures { self.new ≡ last_eight (self.old ++ reply ∷ []) }
    {
        if self.replies.is_full() {
            self.replies.remove(0);
        }
        self.replies.push(reply);
    }
}
