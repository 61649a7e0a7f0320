// Where a journal starts.
use crate::reply::Reply;
use crate::request::Request;
use bytetext::{NoMemory, Seq, TryCopy};
use std::alloc::Global;
use usercodec::Record;

/// What a bot's journal starts from: the bot's state at a version. Bot 0 is the hub, and leaves are numbered from 1.
#[derive(Debug)]
pub struct Base {
    /// The bot's number.
    pub bot: u16,
    /// The version of the records.
    pub version: u32,
    /// The userfile's records at that version: a userfile gives its users first, and then its bans.
    pub records: Seq<Record>,
    /// The hub's last replies to each leaf that has any, by rising leaf. There are at most [`WINDOW`](crate::WINDOW) to
    /// each leaf, the oldest first, to requests with consecutive numbers. A leaf has none.
    pub replies: Seq<Reply>,
    /// The number of the leaf's last request. The hub has 0.
    pub last_request: u32,
    /// The leaf's outstanding requests, by rising number. The last number is at most 7 above that of the first, so
    /// there are at most [`WINDOW`](crate::WINDOW). The hub has none.
    pub out: Seq<Request>,
}

// By hand, so that this is proved once, and not in each function in which a base ends.
impl Drop for Base {
    fn drop(self) {
        let Base {
            bot: _,
            version: _,
            records: _,
            replies: _,
            last_request: _,
            out: _,
        } = self;
    }
}

impl TryCopy for Base {
    fn copy(&self, alloc: Global) -> Result<Base, NoMemory> {
        Ok(Base {
            bot: self.bot,
            version: self.version,
            records: self.records.copy(alloc)?,
            replies: self.replies.copy(alloc)?,
            last_request: self.last_request,
            out: self.out.copy(alloc)?,
        })
    }
}
