// Turns of a hub.
use crate::inboxes::put_into;
use crate::packets::{added, packet_of};
use crate::reports::put_reports;
use botcore::{Bot, BotError, Config};
use bottimers::Zone;
use bytetext::{Text, Texts};
use caselines::{BAD_NUMBER, BAD_WORDS, CaseError, Sink, cut, number};
use disks::MemDisk;
use ircline::LineReader;
use peers::Inbox;
use procs::{Nobodies, ProcStore};
use std::alloc::Global;
use turns::{Heard, take_turn};
use userfile::Change;
use watching::{NoWatcher, Watcher};

/// Answers `turn LEAVES STEP..`: what a new hub reports in each of its turns, with ` | ` between. `words` are those
/// after `turn`.
pub fn turns(alloc: Global, words: &[Text], out: &mut Sink) -> Result<(), CaseError> {
    let [leaves, steps @ ..] = words else {
        return Err(BAD_WORDS);
    };
    let mut seat = Seat {
        hub: hub_of(alloc, number(leaves.as_bytes())?)?,
        lines: LineReader::new(alloc),
        inbox: Inbox::new(alloc, 1)?,
    };
    let mut coming = Coming::nothing(alloc);
    let mut turns = 0;
    for step in steps {
        match step.as_bytes() {
            b"go" => {
                out.between(b" | ", turns);
                turns = 1;
                seat.take(alloc, coming, out)?;
                coming = Coming::nothing(alloc);
            }
            heard => hear(alloc, &mut seat, &mut coming, heard)?,
        }
    }
    Ok(())
}

// A hub, what its connection to the server has begun to say, and what its leaves have sent.
#[derive(Drop)]
struct Seat {
    hub: Bot<MemDisk>,
    lines: LineReader,
    inbox: Inbox,
}

// What the hub hears in its next turn, except packets.
#[derive(Drop)]
struct Coming {
    connected: bool,
    bytes: Vec<u8>,
    changes: Vec<Change>,
    now: u64,
    pump: bool,
    compact: bool,
}

impl Coming {
    fn nothing(alloc: Global) -> Coming {
        Coming {
            connected: false,
            bytes: Vec::new(alloc),
            changes: Vec::new(alloc),
            now: 0,
            pump: false,
            compact: false,
        }
    }
}

impl Seat {
    // Takes a turn that hears `coming`, and writes what its steps report.
    fn take(&mut self, alloc: Global, coming: Coming, out: &mut Sink) -> Result<(), CaseError> {
        let store: Nobodies = ProcStore::new(alloc);
        let packets = self.inbox.take(alloc)?;
        let heard = Heard {
            connected: coming.connected,
            bytes: coming.bytes,
            packets,
            changes: coming.changes,
            now: coming.now,
            pump: coming.pump,
            compact: coming.compact,
        };
        let mut watcher = NoWatcher::new();
        watcher.began(&self.hub);
        watcher.note_heard(&heard.packets);
        let told = take_turn(
            alloc,
            &mut self.hub,
            &store,
            &mut self.lines,
            heard,
            &mut watcher,
        );
        put_reports(alloc, &told, out)
    }
}

// Creates a hub of `leaves` leaves, over disks in memory.
fn hub_of(alloc: Global, leaves: u16) -> Result<Bot<MemDisk>, CaseError> {
    let config = Config {
        number: 0,
        leaves,
        nick: Text::from_slice(alloc, b"egg")?,
        channels: Texts::empty(alloc),
        exclusive: false,
        sends_at_once: false,
        leaves_bans: false,
        zone: Zone::fixed(0).unwrap(),
    };
    match Bot::create(alloc, config, MemDisk::new(alloc), MemDisk::new(alloc)) {
        Ok(hub) => Ok(hub),
        Err(returned) => match returned.error {
            BotError::Refused(_) => Err(BAD_NUMBER),
            BotError::NoMemory => Err(CaseError::NoMemory),
        },
    }
}

// Adds what `step` says to what the hub hears next.
fn hear(alloc: Global, seat: &mut Seat, coming: &mut Coming, step: &[u8]) -> Result<(), CaseError> {
    let (name, rest) = cut(step, b' ');
    match name {
        b"connect" => coming.connected = true,
        b"bytes" => coming.bytes.extend_from_slice(rest)?,
        b"line" => {
            coming.bytes.extend_from_slice(rest)?;
            coming.bytes.extend_from_slice(b"\r\n")?;
        }
        b"at" => coming.now = number(rest)?,
        b"packet" => put_packet(alloc, &mut seat.inbox, rest)?,
        b"ask" => coming.changes.push(added(alloc, rest)?)?,
        b"pump" => coming.pump = true,
        b"compact" => coming.compact = true,
        _ => return Err(BAD_WORDS),
    }
    Ok(())
}

fn put_packet(alloc: Global, inbox: &mut Inbox, words: &[u8]) -> Result<(), CaseError> {
    let mut packets = Vec::new(alloc);
    packets.push(packet_of(alloc, words)?)?;
    put_into(inbox, 0, packets)
}
