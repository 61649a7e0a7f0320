// How a hub takes a packet.
use crate::answer::Answer;
use crate::error::{LinkError, LinkFault};
use crate::hub_accepting::accept;
use crate::hub_link::HubLink;
use crate::hub_packets::{hello_packets, reply_packet};
use crate::hub_record::HubRecord;
use crate::note::LinkNote;
use crate::texts::{Route, text_by};
use botjournal::{LAYOUT, Reply, Verdict as Outcome};
use bytetext::{Failure, Seq, Text, TryCopy};
use disks::Disk;
use sharewire::Packet;
use std::alloc::Global;
use userfile::{Change, ChangeFault};

impl<D: Disk> HubLink<D> {
    ghost use Rattle.std.specs.Prelude.{◌≡◌, ◌+◌, ◌||◌, true, false, nat_lt};
    ghost use Rattle.protocol.specs.Packets.{from_wire};
    ghost use Rattle.protocol.specs.Packets.Packet.{Hello as hello_packet, Request as request_packet, BotText as text_packet};
    ghost use Rattle.protocol.specs.Numbers.{item_at};
    ghost use Rattle.protocol.specs.HubRules.{version_of, is_no_leaf, hello_met, hub_received, hub_received_up, repeats, next_request};
    ghost use Rattle.protocol.specs.Journals.{is_next_of};
    ghost use Rattle.sharelink.specs.declared.TheConstants.{MAX_LEAVES};
    ghost use Rattle.sharelink.specs.Shapes.{GoOut};
    ghost use Rattle.std.specs.Prelude.{Some};
    ghost use Rattle.sharelink.specs.HubLinks.{Calls};

    // See `BotLink::receive`. It leaves the hub as it was if memory runs out; `Stray`, `Old` and `Gap`, and `Served`
    // without packets, allocate nothing.
    pub(crate) fn receive(&mut self, alloc: Global, packet: &Packet) -> Result<Answer, LinkError>
        ensures row { Calls self.old (λ how. hub_received self.old.leaves how self.old.bot (from_wire packet.now)) result self.new }
        ensures packets { GoOut (MAX_LEAVES + 1) result }
    {
        if self.kept.is_down() {
            return Err(Failure::Refused(LinkFault::Down));
        }
        match packet {
            Packet::Hello {
                layout,
                leaf,
                version,
            } => self.receive_hello(alloc, *layout, *leaf, *version),
            Packet::Request {
                leaf,
                request,
                change,
            } => self.receive_request(alloc, *leaf, *request, change),
            Packet::BotText { from, to, text } => self.receive_text(alloc, *from, *to, text),
            Packet::Change { .. }
            | Packet::Accepted { .. }
            | Packet::Refused { .. }
            | Packet::Part { .. } => Ok(Answer::only(alloc, LinkNote::Stray)),
        }
    }

    // Answers a leaf's hello.
    fn receive_hello(
        &self,
        alloc: Global,
        layout: u8,
        leaf: u16,
        version: u32,
    ) -> Result<Answer, LinkError>
        ensures row { Calls self.now (λ how. hub_received_up self.now.leaves how self.now.bot (hello_packet layout leaf version)) result self.now }
        ensures packets { GoOut (MAX_LEAVES + 1) result }
    {
        if layout != LAYOUT {
            return Err(Failure::Refused(LinkFault::OtherLayout));
        }
        self.meet_hello(alloc, leaf, version)
    }

    // Answers a hello of the hub's layout.
    fn meet_hello(&self, alloc: Global, leaf: u16, version: u32) -> Result<Answer, LinkError>
        ensures row { Calls self.now (λ how. hello_met self.now.leaves how self.now.bot leaf version) result self.now }
        ensures packets { GoOut (MAX_LEAVES + 1) result }
    {
        if self.is_stray_hello(leaf, version) {
            return Ok(Answer::only(alloc, LinkNote::Stray));
        }
        let packets = Seq::new(hello_packets(alloc, leaf, version, self.kept.state())?);
        Ok(Answer {
            note: LinkNote::Served(packets.len()),
            packets,
        })
    }

    // Whether there is no such leaf, or no such version yet.
    fn is_stray_hello(&self, leaf: u16, version: u32) -> bool
        ensures { result ≡ (is_no_leaf self.now.leaves leaf || nat_lt (version_of self.now.bot.kept) version) }
    {
        leaf == 0 || leaf > self.kept.who() || version > self.kept.state().version()
    }

    // Takes a text, or passes it on.
    fn receive_text(
        &self,
        alloc: Global,
        from: u16,
        to: u16,
        text: &Text,
    ) -> Result<Answer, LinkError>
        ensures row { Calls self.now (λ how. hub_received_up self.now.leaves how self.now.bot (text_packet from to text.now)) result self.now }
        ensures packets { GoOut (MAX_LEAVES + 1) result }
    {
        if self.is_stray_text(from, to) {
            return Ok(Answer::only(alloc, LinkNote::Stray));
        }
        if to == 0 {
            let text = text.copy(alloc)?;
            return Ok(Answer::only(alloc, LinkNote::Text { from, text }));
        }
        let outgoing = text_by(alloc, Route { next: to, from, to }, text.as_bytes())?;
        Ok(Answer {
            note: LinkNote::Relayed,
            packets: Seq::new(vec![in alloc; outgoing]?),
        })
    }

    // Whether there is no such bot.
    fn is_stray_text(&self, from: u16, to: u16) -> bool
        ensures { result ≡ (nat_lt self.now.leaves from || nat_lt self.now.leaves to) }
    {
        let leaves = self.kept.who();
        from > leaves || to > leaves
    }

    // Takes a leaf's request.
    fn receive_request(
        &mut self,
        alloc: Global,
        leaf: u16,
        request: u32,
        change: &Change,
    ) -> Result<Answer, LinkError>
        requires up { self.old.bot.down ≡ false }
        ensures row { Calls self.old (λ how. hub_received_up self.old.leaves how self.old.bot (request_packet leaf request change.now)) result self.new }
        ensures packets { GoOut (MAX_LEAVES + 1) result }
    {
        if request == 0 {
            return Ok(Answer::only(alloc, LinkNote::Stray));
        }
        let Some(kept) = self.kept.state().replies_to(leaf) else {
            return Ok(Answer::only(alloc, LinkNote::Stray));
        };
        let last = kept.last_request();
        if request <= last {
            return self.answer_again(alloc, leaf, request, kept.reply_to(request));
        }
        if request - last > 1 {
            return Ok(Answer::only(alloc, LinkNote::Gap));
        }
        match self.kept.state().userfile().refusal_of(change) {
            Some(fault) => self.refuse_request(alloc, leaf, request, fault),
            None => accept(alloc, &mut self.kept, leaf, request, change),
        }
    }

    // Answers a request that was replied to before: with that reply, if it is still kept.
    fn answer_again(
        &self,
        alloc: Global,
        leaf: u16,
        request: u32,
        reply: Option<Reply>,
    ) -> Result<Answer, LinkError>
        ensures row { Calls self.now (λ how. repeats self.now.leaves how self.now.bot leaf request reply) result self.now }
        ensures packets { GoOut (MAX_LEAVES + 1) result }
    {
        let Some(reply) = reply else {
            return Ok(Answer::only(alloc, LinkNote::Old));
        };
        let reply = reply_packet(leaf, request, reply.answer);
        Ok(Answer {
            note: LinkNote::Repeat,
            packets: Seq::new(vec![in alloc; reply]?),
        })
    }

    // Rejects a leaf's next request.
    fn refuse_request(
        &mut self,
        alloc: Global,
        leaf: u16,
        request: u32,
        fault: ChangeFault,
    ) -> Result<Answer, LinkError>
        requires up { self.old.bot.down ≡ false }
        requires next { is_next_of (item_at self.old.bot.kept.replies leaf) request ≡ true }
        ensures row { (change : _) → Calls self.old (λ how. next_request self.old.leaves how self.old.bot leaf request change (Some fault)) result self.new }
        ensures packets { GoOut (MAX_LEAVES + 1) result }
    {
        let reply = reply_packet(leaf, request, Outcome::Refused(fault));
        let packets = Seq::new(vec![in alloc; reply]?);
        match self.kept.journal(alloc, HubRecord::settle(leaf, fault)) {
            Ok(()) => Ok(Answer {
                note: LinkNote::Refused(fault),
                packets,
            }),
            Err(error) => Err(error),
        }
    }
}
