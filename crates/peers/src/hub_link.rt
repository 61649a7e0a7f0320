// A leaf's link to its hub.
ghost use Rattle.std.specs.Prelude.{◌≡◌, IfOk, is_some};
ghost use Rattle.std.specs.List.{AllByRecursion};
ghost use Rattle.sharelink.specs.Shapes.{HasGoodRecords};
ghost use Rattle.peers.specs.Hearing.{ReadsOn, is_no_hub};
ghost use Rattle.peers.specs.HubHearing.{HeedsHub, HearsHub};

use crate::beat::{Beat, Beats, last_of};
use crate::frame_reader::FrameReader;
use crate::gone::Gone;
use crate::link_wire::LinkWire;
use bytetext::NoMemory;
use net::Way;
use sharewire::Packet;
use std::alloc::Global;

// A leaf's link to its hub.
pub(crate) struct HubLink {
    pub(crate) wire: LinkWire,
    reader: FrameReader,
    // What the leaf last said of itself on this connection.
    said: Beat,
    // The version that the hub said last.
    pub(crate) version: u32,
    pub(crate) way: Way,
    // The second at which it was linked.
    pub(crate) since: u64,
}

// Written by hand, so that the drop is proved once, and not in each function that drops one.
impl Drop for HubLink {
    fn drop(self) {
        let HubLink {
            wire: _,
            reader: _,
            said: _,
            version: _,
            way: _,
            since: _,
        } = self;
    }
}

impl HubLink {
    // A link that begins at second `now`. The leaf has said this of itself, and the hub is at `version`. Allocates nothing.
    pub(crate) fn new(
        alloc: Global,
        wire: LinkWire,
        said: Beat,
        version: u32,
        way: Way,
        now: u64,
    ) -> HubLink {
        HubLink {
            wire,
            reader: FrameReader::new(alloc),
            said,
            version,
            way,
            since: now,
        }
    }

    // Reads a piece at second `steady` of the monotonic clock, and returns the packets that are whole now. Bytes that are
    // no records or no frames end the connection, and so does a beat by which the hub is an older copy of itself.
    pub(crate) fn hear(&mut self, alloc: Global, steady: u64) -> Result<Vec<Packet>, NoMemory>
        ensures good { IfOk result (λ packets. AllByRecursion HasGoodRecords packets.items) }
        // Only what was checked.
        ensures checked { IfOk result (λ packets. HearsHub self.old packets.items self.new) }
    {
        let opened = self.wire.open(alloc, steady)?;
        self.heed_beats(opened.beats.as_slice());
        self.read_frames(alloc, opened.frames.as_slice())
    }

    // Reads frames.
    fn read_frames(&mut self, alloc: Global, frames: &[u8]) -> Result<Vec<Packet>, NoMemory>
        ensures good { IfOk result (λ packets. AllByRecursion HasGoodRecords packets.items) }
        ensures reads { IfOk result (λ packets. ReadsOn frames.now packets.items self.old.reader self.new.reader) }
        ensures wire { IfOk result (λ _. self.new.wire ≡ record self.old.wire { gone = self.new.wire.gone }) }
    {
        let feed = self.reader.feed(alloc, frames)?;
        self.wire.end_at(feed.fault);
        Ok(feed.packets.into_vec())
    }

    // Compares what the last of these beats says with what the leaf said. The leaf only follows the hub, so its version is
    // never above the hub's.
    fn heed_beats(&mut self, contents: &[u8])
        ensures heeds { HeedsHub contents.now self.old self.new }
        ensures wire { self.new.wire ≡ record self.old.wire { gone = self.new.wire.gone } }
        ensures reader { self.new.reader ≡ self.old.reader }
    {
        match last_of(contents) {
            Beats::Nothing => {}
            Beats::Last(beat) => {
                self.version = beat.version;
                if let Some(gone) = gone_by(&beat, &self.said) {
                    self.wire.end(gone);
                }
            }
            Beats::Bad => self.wire.end(Gone::BadBeat),
        }
    }

    // Has a beat sent that says this, if one is due at second `steady`.
    pub(crate) fn say_if_due(&mut self, beat: Beat, steady: u64) {
        if self.wire.wants_beat(steady) {
            self.said = beat;
            self.wire.put_beat(beat);
        }
    }

    // Whether the hub may have more to read at once.
    pub(crate) fn is_busy(&self) -> bool {
        self.wire.connection.may_give() && self.wire.gone().is_none()
    }
}

// Why a hub that says this is no hub of a leaf that said that.
fn gone_by(hub: &Beat, leaf: &Beat) -> Option<Gone>
    ensures { is_some result ≡ is_no_hub hub.now leaf.now }
{
    if hub.version < leaf.version {
        Some(Gone::HubBehind)
    } else if hub.version == leaf.version && hub.sum != leaf.sum {
        Some(Gone::HubDiffers)
    } else {
        None
    }
}
