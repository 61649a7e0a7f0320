// What goes over the link.
use bytetext::{NoMemory, Seq, Text, TryCopy};
use std::alloc::Global;
use usercodec::Record;
use userfile::{Change, ChangeFault};

/// One packet of the sharing link. Bot 0 is the hub, and leaves are numbered from 1.
#[derive(Debug)]
pub enum Packet {
    /// A leaf's hello to the hub: the layout of its journal, and its version.
    Hello {
        /// The layout in which the leaf keeps its journal, from 1: layout 0 has no frame. A leaf of a layout below 4
        /// can't read a change in a person's name.
        layout: u8,
        /// The leaf's number.
        leaf: u16,
        /// The leaf's version.
        version: u32,
    },
    /// The hub sends a leaf an accepted change.
    Change {
        /// The change's number, from 1.
        number: u32,
        /// The bot that asked for it: 0 for the hub.
        origin: u16,
        /// The asking leaf's request number: 0 for the hub's own.
        request: u32,
        /// The change itself, with who asks for it.
        change: Change,
    },
    /// The hub sends a leaf a part of its records at a version.
    Part {
        /// The version of the records.
        version: u32,
        /// The part's number, from 1.
        part: u8,
        /// How many parts the records have.
        count: u8,
        /// The part's records, at most [`MAX_PART_RECORDS`](crate::MAX_PART_RECORDS).
        records: Seq<Record>,
    },
    /// A leaf asks the hub for a change.
    Request {
        /// The leaf's number.
        leaf: u16,
        /// The leaf's number for this request.
        request: u32,
        /// The change that it asks for, with the person who asks if there is one.
        change: Change,
    },
    /// The hub tells a leaf that its request was accepted.
    Accepted {
        /// The leaf's number.
        leaf: u16,
        /// The leaf's number for its request.
        request: u32,
        /// The number that the change got.
        number: u32,
    },
    /// The hub tells a leaf that its request was rejected.
    Refused {
        /// The leaf's number.
        leaf: u16,
        /// The leaf's number for its request.
        request: u32,
        /// Why the userfile refused the change.
        fault: ChangeFault,
    },
    /// A bot sends a text to another bot.
    BotText {
        /// The bot that sends it.
        from: u16,
        /// The bot that gets it.
        to: u16,
        /// The text: see [`is_bot_text`](crate::is_bot_text).
        text: Text,
    },
}

// By hand, so that this is proved once, and not in each crate in which a packet ends.
impl Drop for Packet {
    fn drop(self) {
        match self {
            Packet::Hello {
                layout: _,
                leaf: _,
                version: _,
            } => {}
            Packet::Change {
                number: _,
                origin: _,
                request: _,
                change: _,
            } => {}
            Packet::Part {
                version: _,
                part: _,
                count: _,
                records: _,
            } => {}
            Packet::Request {
                leaf: _,
                request: _,
                change: _,
            } => {}
            Packet::Accepted {
                leaf: _,
                request: _,
                number: _,
            } => {}
            Packet::Refused {
                leaf: _,
                request: _,
                fault: _,
            } => {}
            Packet::BotText {
                from: _,
                to: _,
                text: _,
            } => {}
        }
    }
}

impl TryCopy for Packet {
    fn copy(&self, alloc: Global) -> Result<Packet, NoMemory> {
        match self {
            Packet::Hello {
                layout,
                leaf,
                version,
            } => Ok(Packet::Hello {
                layout: *layout,
                leaf: *leaf,
                version: *version,
            }),
            Packet::Change {
                number,
                origin,
                request,
                change,
            } => Ok(Packet::Change {
                number: *number,
                origin: *origin,
                request: *request,
                change: change.copy(alloc)?,
            }),
            Packet::Part {
                version,
                part,
                count,
                records,
            } => Ok(Packet::Part {
                version: *version,
                part: *part,
                count: *count,
                records: records.copy(alloc)?,
            }),
            Packet::Request {
                leaf,
                request,
                change,
            } => Ok(Packet::Request {
                leaf: *leaf,
                request: *request,
                change: change.copy(alloc)?,
            }),
            Packet::Accepted {
                leaf,
                request,
                number,
            } => Ok(Packet::Accepted {
                leaf: *leaf,
                request: *request,
                number: *number,
            }),
            Packet::Refused {
                leaf,
                request,
                fault,
            } => Ok(Packet::Refused {
                leaf: *leaf,
                request: *request,
                fault: *fault,
            }),
            Packet::BotText { from, to, text } => Ok(Packet::BotText {
                from: *from,
                to: *to,
                text: text.copy(alloc)?,
            }),
        }
    }
}
