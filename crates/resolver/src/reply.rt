// The reply to a query.
ghost use Rattle.std.specs.Prelude.{◌≡◌, ◌≤◌, ◌↔◌, IsTrue, None, length};
ghost use Rattle.resolver.specs.Replies.{IsReply, is_cut, answer_in, answer_with};
ghost use Rattle.resolver.specs.declared.query.TheConstants.{HEADER};

use crate::addresses::Addresses;
use crate::query::{HEADER, Query};
use crate::records::{addresses_in, number_at};

/// What a name server answers to a query.
#[derive(Drop)]
pub enum NameAnswer {
    /// The name has these addresses of the family that was asked for: at least one.
    Found(Addresses),
    /// Nobody has the name, or it has no address of this family.
    Nothing,
}

impl Query {
    ghost use Rattle.std.specs.Prelude.{◌≡◌, None, IfSome};
    ghost use Rattle.resolver.specs.Held.{AreHeld};
    ghost use Rattle.resolver.specs.Replies.{IsReply, answer_in};

    /// Returns what `reply`, the bytes of one datagram, answers to this query. Returns `None` if it answers nothing:
    /// it has another number or another question, it is no response, it is malformed, it was cut before its first
    /// address, or the server reports that it failed or refuses.
    ///
    /// An address counts in whatever record of the answer section it stands, if the type is the one asked for: the
    /// names of records are not compared with that of the query, since the server follows aliases itself.
    pub fn answer(&self, reply: &[u8]) -> Option<NameAnswer>
        ensures other { (IsReply self.now.bytes reply.now → ⊥) → result ≡ None }
        ensures answer { IsReply self.now.bytes reply.now → result ≡ answer_in self.now reply.now }
        ensures held { IfSome result (AreHeld self.now.family reply.now) }
    {
        if is_reply(self.as_bytes(), reply) {
            self.answer_in(reply)
        } else {
            None
        }
    }

    // Returns what a reply to this query answers.
    fn answer_in(&self, reply: &[u8]) -> Option<NameAnswer>
        requires { IsReply self.now.bytes reply.now }
        ensures { result ≡ answer_in self.now reply.now }
    {
        match reply[3] % 16 {
            0 => {
                let (_, records) = reply.split_at(self.as_bytes().len());
                let found = addresses_in(self.family(), number_at(6, reply), records)?;
                answer_with(is_cut(reply), found)
            }
            3 => Some(NameAnswer::Nothing),
            _ => None,
        }
    }
}

// Returns whether `reply` is a reply to `query`.
fn is_reply(query: &[u8], reply: &[u8]) -> bool
    requires { HEADER ≤ length query.now }
    ensures { IsTrue result ↔ IsReply query.now reply.now }
{
    if reply.len() < query.len() {
        return false;
    }
    let has_number = number_at(0, reply) == number_at(0, query);
    let is_response = 128 <= reply[2] && reply[2] < 136;
    let has_one_question = number_at(4, reply) == 1;
    let (front, _) = reply.split_at(query.len());
    let is_same = front[HEADER..].eq_ignore_ascii_case(&query[HEADER..]);
    has_number && is_response && has_one_question && is_same
}

// Returns whether the server cut the reply to fit a datagram.
fn is_cut(reply: &[u8]) -> bool
    requires { HEADER ≤ length reply.now }
    ensures { result ≡ is_cut reply.now }
{
    reply[2] / 2 % 2 == 1
}

// Returns what the addresses of a whole answer section mean.
fn answer_with(cut: bool, found: Addresses) -> Option<NameAnswer>
    ensures { result ≡ answer_with cut found }
{
    if !found.as_slice().is_empty() {
        return Some(NameAnswer::Found(found));
    }
    if cut { None } else { Some(NameAnswer::Nothing) }
}
