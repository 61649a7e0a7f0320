// How a leaf takes the hub's packets.
ghost use Rattle.std.specs.Prelude.{◌≡◌, ◌==◌, ◌||◌, not, nat_lt};
ghost use Rattle.sharelink.specs.Calls.{note_of as told_of};
ghost use Rattle.sharelink.specs.LeafLinks.{reply_note};

use crate::answer::Answer;
use crate::error::{LinkError, LinkFault};
use crate::leaf_link::LeafLink;
use crate::leaf_record::LeafRecord;
use crate::note::LinkNote;
use crate::parts::{is_behind, keep_part, whole_set};
use botjournal::Verdict as Outcome;
use bytetext::{Failure, Seq, Text, TryCopy};
use disks::Disk;
use sharewire::Packet;
use std::alloc::Global;
use usercodec::Record;
use userfile::Change;

impl<D: Disk> LeafLink<D> {
    ghost use Rattle.std.specs.Prelude.{◌≡◌, ◌+◌, ◌<◌, ◌≤◌, ◌||◌, nat_le, [], None, IfOk, false};
    ghost use Rattle.userfile.specs.Apply.{refusal};
    ghost use Rattle.protocol.specs.LeafRules.{next_applied};
    ghost use Rattle.protocol.specs.Snapshots.{is_behind};
    ghost use Rattle.std.specs.List.{AllByRecursion};
    ghost use Rattle.usercodec.specs.Records.{IsGoodRecord};
    ghost use Rattle.sharelink.specs.Shapes.{HasGoodRecords};
    ghost use Rattle.sharelink.specs.LeafLinks.{Calls};
    ghost use Rattle.sharelink.specs.LeafLinks.{received, change_placed_at, reply_placed_at, part_placed_at, part_taken_at, text_placed_at};

    // See `BotLink::receive`. `Diverged` drops the kept parts; the other errors but `JournalFault` leave the leaf as it
    // was. `Old`, `Early` and `Stray` allocate nothing.
    pub(crate) fn receive(&mut self, alloc: Global, packet: &Packet) -> Result<Answer, LinkError>
        requires records { HasGoodRecords packet.now }
        ensures row { Calls self.old (received self.old packet.now) result self.new }
        ensures few { IfOk result (λ answer. answer.packets ≡ []) }
    {
        if self.kept.is_down() {
            return Err(Failure::Refused(LinkFault::Down));
        }
        match packet {
            Packet::Change { number, change, .. } => self.receive_change(alloc, *number, change),
            Packet::Accepted {
                leaf,
                request,
                number,
            } => self.receive_reply(alloc, *leaf, *request, Outcome::Taken(*number)),
            Packet::Refused {
                leaf,
                request,
                fault,
            } => self.receive_reply(alloc, *leaf, *request, Outcome::Refused(*fault)),
            Packet::BotText { from, to, text } => self.receive_text(alloc, *from, *to, text),
            Packet::Part {
                version,
                part,
                count,
                records,
            } => self.receive_part(alloc, *version, *part, *count, records),
            Packet::Hello { .. } | Packet::Request { .. } => Ok(Answer::only(
                alloc,
                LinkNote::Stray,
            )),
        }
    }

    // Applies the next change.
    fn receive_change(
        &mut self,
        alloc: Global,
        number: u32,
        change: &Change,
    ) -> Result<Answer, LinkError>
        requires up { self.old.bot.down ≡ false }
        ensures row { Calls self.old (change_placed_at self.old number change.now) result self.new }
        ensures few { IfOk result (λ answer. answer.packets ≡ []) }
    {
        let version = self.kept.state().version();
        if number <= version {
            return Ok(Answer::only(alloc, LinkNote::Old));
        }
        if number - version > 1 {
            return Ok(Answer::only(alloc, LinkNote::Early));
        }
        if self.kept.state().userfile().refusal_of(change).is_some() {
            self.parts = None;
            return Err(Failure::Refused(LinkFault::Diverged));
        }
        self.apply_change(alloc, number, change)
    }

    // Applies the next change, which the leaf's records take.
    fn apply_change(
        &mut self,
        alloc: Global,
        number: u32,
        change: &Change,
    ) -> Result<Answer, LinkError>
        requires up { self.old.bot.down ≡ false }
        requires next { number ≡ self.old.bot.kept.version + 1 }
        requires taken { refusal self.old.bot.kept.records change.now ≡ None }
        ensures row { Calls self.old (λ how. next_applied self.old.leaves self.old.number how self.old.bot change.now None) result self.new }
        ensures few { IfOk result (λ answer. answer.packets ≡ []) }
    {
        let next = LeafRecord::apply(change.copy(alloc)?);
        match self.kept.journal(alloc, next) {
            Ok(()) => Ok(Answer::only(alloc, LinkNote::Applied(number))),
            Err(error) => Err(error),
        }
    }

    // Ends the request that the reply is to, if it is outstanding.
    fn receive_reply(
        &mut self,
        alloc: Global,
        leaf: u16,
        request: u32,
        reply: Outcome,
    ) -> Result<Answer, LinkError>
        requires up { self.old.bot.down ≡ false }
        ensures row { Calls self.old (reply_placed_at self.old leaf request reply) result self.new }
        ensures few { IfOk result (λ answer. answer.packets ≡ []) }
    {
        if is_no_reply(leaf, request, self.kept.who()) {
            return Ok(Answer::only(alloc, LinkNote::Stray));
        }
        if !self.kept.state().is_out(request) {
            return Ok(Answer::only(alloc, LinkNote::Old));
        }
        match self.kept.journal(alloc, LeafRecord::done(request)) {
            Ok(()) => Ok(Answer::only(alloc, note_of(reply))),
            Err(error) => Err(error),
        }
    }

    // Takes a part of a later version's records.
    fn receive_part(
        &mut self,
        alloc: Global,
        version: u32,
        part: u8,
        count: u8,
        records: &Seq<Record>,
    ) -> Result<Answer, LinkError>
        requires up { self.old.bot.down ≡ false }
        requires good { AllByRecursion IsGoodRecord records.now }
        ensures row { Calls self.old (part_placed_at self.old version part count records.now) result self.new }
        ensures few { IfOk result (λ answer. answer.packets ≡ []) }
    {
        if is_no_part(part, count) {
            return Ok(Answer::only(alloc, LinkNote::Stray));
        }
        if self.is_old_part(version) {
            return Ok(Answer::only(alloc, LinkNote::Old));
        }
        self.take_part(alloc, version, part, count, records)
    }

    // Whether the leaf is at that version or a later one, or keeps parts of a later one.
    fn is_old_part(&self, version: u32) -> bool
        ensures { result ≡ (nat_le version self.now.bot.kept.version || is_behind version self.now.bot.loose.parts) }
    {
        version <= self.kept.state().version() || is_behind(version, &self.parts)
    }

    // Takes a part that is new: if it is the last missing one, installs all records.
    fn take_part(
        &mut self,
        alloc: Global,
        version: u32,
        part: u8,
        count: u8,
        records: &Seq<Record>,
    ) -> Result<Answer, LinkError>
        requires up { self.old.bot.down ≡ false }
        requires numbered { (0 < part) × (part ≤ count) }
        requires good { AllByRecursion IsGoodRecord records.now }
        ensures row { Calls self.old (part_taken_at self.old version part count records.now) result self.new }
        ensures few { IfOk result (λ answer. answer.packets ≡ []) }
    {
        let Some(whole) = whole_set(&self.parts, version, part, count, records.as_slice()) else {
            keep_part(alloc, &mut self.parts, version, part, count, records)?;
            return Ok(Answer::only(alloc, LinkNote::Kept(u32::from(part))));
        };
        if !whole.stand_together() {
            self.parts = None;
            return Err(Failure::Refused(LinkFault::Diverged));
        }
        if self.kept.state().generation() == u32::MAX {
            return Err(Failure::Refused(LinkFault::NumbersSpent));
        }
        let userfile = whole.userfile(alloc)?;
        userfile.are_sound();
        let records = LeafRecord::install(version, userfile);
        match self.kept.journal(alloc, records) {
            Ok(()) => {
                self.parts = None;
                Ok(Answer::only(alloc, LinkNote::Installed(version)))
            }
            Err(error) => Err(error),
        }
    }

    // Takes a text.
    fn receive_text(
        &self,
        alloc: Global,
        from: u16,
        to: u16,
        text: &Text,
    ) -> Result<Answer, LinkError>
        ensures row { Calls self.now (text_placed_at self.now from to text.now) result self.now }
        ensures few { IfOk result (λ answer. answer.packets ≡ []) }
    {
        if is_no_text(from, to, self.kept.who(), self.leaves) {
            return Ok(Answer::only(alloc, LinkNote::Stray));
        }
        let text = text.copy(alloc)?;
        Ok(Answer::only(alloc, LinkNote::Text { from, text }))
    }
}

// Returns the note of a reply.
fn note_of(reply: Outcome) -> LinkNote
    ensures { told_of result ≡ reply_note reply }
{
    match reply {
        Outcome::Taken(number) => LinkNote::Accepted(number),
        Outcome::Refused(fault) => LinkNote::Refused(fault),
    }
}

// Whether no part has the number `part` among `count` parts.
fn is_no_part(part: u8, count: u8) -> bool
    ensures { result ≡ ((part == 0) || nat_lt count part) }
{
    part == 0 || count < part
}

// Whether a reply is to none of this leaf's requests.
fn is_no_reply(leaf: u16, request: u32, number: u16) -> bool
    ensures { result ≡ (not (leaf == number) || (request == 0)) }
{
    leaf != number || request == 0
}

// Whether a text is not for this leaf, or from no bot of the net.
fn is_no_text(from: u16, to: u16, number: u16, leaves: u16) -> bool
    ensures { result ≡ (nat_lt leaves from || not (to == number)) }
{
    from > leaves || to != number
}
