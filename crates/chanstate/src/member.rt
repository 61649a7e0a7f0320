// One member of a channel.
ghost use Rattle.std.specs.Prelude.{◌≡◌, ◌<◌, ◌+◌, length, IfOk, IfErr};
ghost use Rattle.chanstate.specs.Members.{unmarked, with_detail, with_mark, edited};

use crate::detail::Detail;
use crate::member_edit::MemberEdit;
use bytetext::{NoMemory, Text, TryCopy};
use std::alloc::Global;

/// A mark that a member of a channel may have.
#[derive(Clone, Copy, Debug)]
pub enum Mark {
    /// Channel operator, `@` in a list of names and `o` in a mode.
    Op,
    /// Voice, `+` in a list of names and `v` in a mode.
    Voice,
    /// Half-operator, `%` in a list of names and `h` in a mode.
    HalfOp,
}

/// Someone who is on a channel.
#[derive(Debug, Drop)]
pub struct Member {
    /// The nick, spelled as in the line that put the member on the channel or renamed it.
    pub nick: Text,
    /// The user name; empty until a line tells it.
    pub user: Text,
    /// The host; empty until a line tells it.
    pub host: Text,
    /// The account of the network's services under which the member is logged in; empty if none is known.
    pub account: Text,
    /// Whether the member is a channel operator.
    pub op: bool,
    /// Whether the member has voice.
    pub voice: bool,
    /// Whether the member is a half-operator.
    pub half_op: bool,
}

impl Member {
    /// Creates a member called `nick` with the address `user` and `host`, without marks and without an account.
    ///
    /// # Errors
    /// Returns `NoMemory` if a copy can't be allocated, never if the nick, the user name and the host are all empty.
    pub fn new(alloc: Global, nick: &[u8], user: &[u8], host: &[u8]) -> Result<Member, NoMemory>
        ensures member { IfOk result (λ m. m ≡ unmarked nick.now user.now host.now) }
        ensures memory { IfErr result (λ _. 0 < length nick.now + length user.now + length host.now) }
    {
        Ok(Member {
            nick: Text::from_slice(alloc, nick)?,
            user: Text::from_slice(alloc, user)?,
            host: Text::from_slice(alloc, host)?,
            account: Text::empty(alloc),
            op: false,
            voice: false,
            half_op: false,
        })
    }

    // Changes what is known of the member.
    pub(crate) fn edit(&mut self, edit: MemberEdit)
        ensures { self.new ≡ edited edit self.old }
    {
        match edit {
            MemberEdit::Marked(mark, on) => self.set_mark(mark, on),
            MemberEdit::Listed(more) => {
                self.op |= more.op;
                self.voice |= more.voice;
                self.half_op |= more.half_op;
            }
            MemberEdit::Addressed(user, host) => {
                self.user = user;
                self.host = host;
            }
            MemberEdit::Told(detail) => self.take_detail(detail),
        }
    }

    // Takes in what the server tells.
    fn take_detail(&mut self, detail: Detail)
        ensures { self.new ≡ with_detail detail self.old }
    {
        match detail {
            Detail::Account(account) => self.account = account,
            Detail::Address { user, host } => {
                self.user = user;
                self.host = host;
            }
        }
    }

    // Sets or clears a mark.
    fn set_mark(&mut self, mark: Mark, on: bool)
        ensures { self.new ≡ with_mark mark on self.old }
    {
        match mark {
            Mark::Op => self.op = on,
            Mark::Voice => self.voice = on,
            Mark::HalfOp => self.half_op = on,
        }
    }
}

impl TryCopy for Member {
    fn copy(&self, alloc: Global) -> Result<Member, NoMemory> {
        Ok(Member {
            nick: self.nick.copy(alloc)?,
            user: self.user.copy(alloc)?,
            host: self.host.copy(alloc)?,
            account: self.account.copy(alloc)?,
            op: self.op,
            voice: self.voice,
            half_op: self.half_op,
        })
    }
}
