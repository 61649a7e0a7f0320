// What a call of a link did.
use bytetext::{NoMemory, Text, TryCopy};
use std::alloc::Global;
use userfile::ChangeFault;

/// The outcome of a call.
#[derive(Debug, Drop)]
pub enum LinkNote {
    /// The ask waits for a pump.
    Queued,
    /// Nothing waits.
    Idle,
    /// The leaf's requests went out; this number is the highest of them.
    Sent(u32),
    /// A change was accepted under this number.
    Accepted(u32),
    /// The hub's userfile refuses the change.
    Refused(ChangeFault),
    /// The hub answers a hello with this many packets.
    Served(usize),
    /// The packet brings nothing new.
    Old,
    /// A request came again, and its reply, which is kept, goes out again.
    Repeat,
    /// A request before this one is missing.
    Gap,
    /// A change before this one is missing.
    Early,
    /// The leaf applied the change of this number.
    Applied(u32),
    /// The leaf keeps the part of this number until it has the others.
    Kept(u32),
    /// The leaf installed the records of this version.
    Installed(u32),
    /// The journal holds the state alone.
    Compacted,
    /// The text goes on to the bot that takes it next.
    Relayed,
    /// A text for this bot.
    Text {
        /// The bot that sent it.
        from: u16,
        /// The text: 1 to 400 bytes, none of them NUL, CR or LF, if the packet was read from bytes.
        text: Text,
    },
    /// The packet is not for this bot, or names something that the net does not have.
    Stray,
    /// The journal was reopened, at this version.
    Restarted(u32),
}

impl TryCopy for LinkNote {
    fn copy(&self, alloc: Global) -> Result<LinkNote, NoMemory> {
        match self {
            LinkNote::Queued => Ok(LinkNote::Queued),
            LinkNote::Idle => Ok(LinkNote::Idle),
            LinkNote::Sent(request) => Ok(LinkNote::Sent(*request)),
            LinkNote::Accepted(number) => Ok(LinkNote::Accepted(*number)),
            LinkNote::Refused(fault) => Ok(LinkNote::Refused(*fault)),
            LinkNote::Served(count) => Ok(LinkNote::Served(*count)),
            LinkNote::Old => Ok(LinkNote::Old),
            LinkNote::Repeat => Ok(LinkNote::Repeat),
            LinkNote::Gap => Ok(LinkNote::Gap),
            LinkNote::Early => Ok(LinkNote::Early),
            LinkNote::Applied(number) => Ok(LinkNote::Applied(*number)),
            LinkNote::Kept(part) => Ok(LinkNote::Kept(*part)),
            LinkNote::Installed(version) => Ok(LinkNote::Installed(*version)),
            LinkNote::Compacted => Ok(LinkNote::Compacted),
            LinkNote::Relayed => Ok(LinkNote::Relayed),
            LinkNote::Text { from, text } => Ok(LinkNote::Text {
                from: *from,
                text: text.copy(alloc)?,
            }),
            LinkNote::Stray => Ok(LinkNote::Stray),
            LinkNote::Restarted(version) => Ok(LinkNote::Restarted(*version)),
        }
    }
}
