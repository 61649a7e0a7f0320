// The parts that a leaf keeps of one version, until it has them all.
ghost use Rattle.std.specs.Prelude.{◌≡◌, ◌<◌, ◌≤◌, ◌==◌, if◌then◌else◌, Some, None, IfSome, OnOk, OnErr, is_some, option_map};
ghost use Rattle.std.specs.List.{AllByRecursion, list_all};
ghost use Rattle.usercodec.specs.Records.{IsGoodRecord};
ghost use Rattle.protocol.specs.Snapshots.{joined, set_for, with_part, is_behind};
ghost use Rattle.sharelink.specs.Parts.{left};

use crate::held_snapshot::HeldSnapshot;
use crate::walk::Walk;
use bytetext::{NoMemory, Seq, TryCopy};
use std::alloc::Global;
use std::marker::Model;
use usercodec::Record;

// The parts of a version, a place for each.
#[derive(Drop)]
pub(crate) struct KeptParts {
    version: u32,
    parts: Vec<Option<Seq<Record>>>,
}

impl Model for KeptParts {
    ghost use Rattle.protocol.specs.Snapshots.{PartSet};
    ghost use Rattle.sharelink.specs.Parts.{AreGoodParts};

    ghost Value = { PartSet };

    ghost view = { λ k. record { version = k.version; parts = k.parts.items } };

    ghost invariant = { λ k. AreGoodParts k.parts.items };
}

impl KeptParts {
    ghost use Rattle.std.specs.Prelude.{◌≡◌, ◌<◌, ◌≤◌, ◌-◌, ◌==◌, ◌&&◌, Some, IfOk, IfSome, length, slice_set, option_map};
    ghost use Rattle.std.specs.List.{AllByRecursion};
    ghost use Rattle.usercodec.specs.Records.{IsGoodRecord};
    ghost use Rattle.protocol.specs.Snapshots.{joined, no_parts, with_part};
    ghost use Rattle.sharelink.specs.Parts.{left};
    ghost use Rattle.sharelink.specs.Telling.{held_of, byte_from, bit_of};

    // Creates an empty set of this version and count.
    pub(crate) fn empty(alloc: Global, version: u32, count: u8) -> Result<KeptParts, NoMemory>
        ensures { IfOk result (λ kept. kept ≡ no_parts version count) }
    {
        let mut parts = Vec::with_capacity(alloc, usize::from(count))?;
        for _ in 0..count {
            parts.push(None)?;
        }
        Ok(KeptParts { version, parts })
    }

    // Returns the version.
    pub(crate) fn version(&self) -> u32
        ensures { result ≡ self.now.version }
    {
        self.version
    }

    // Returns which of the first 88 parts are kept, as bits.
    pub(crate) fn held(&self) -> HeldSnapshot
        ensures { result ≡ held_of self.now }
    {
        HeldSnapshot {
            version: self.version,
            bits: [
                self.byte_from(1),
                self.byte_from(9),
                self.byte_from(17),
                self.byte_from(25),
                self.byte_from(33),
                self.byte_from(41),
                self.byte_from(49),
                self.byte_from(57),
                self.byte_from(65),
                self.byte_from(73),
                self.byte_from(81),
            ],
        }
    }

    // Returns which of the eight parts from the number `first` on are kept: the first of them is the lowest bit.
    fn byte_from(&self, first: usize) -> u8
        requires numbered { (0 < first) × (first ≤ 81) }
        ensures { result ≡ byte_from self.now.parts first }
    {
        self.bit_of(first)
            + 2 * self.bit_of(first + 1)
            + 4 * self.bit_of(first + 2)
            + 8 * self.bit_of(first + 3)
            + 16 * self.bit_of(first + 4)
            + 32 * self.bit_of(first + 5)
            + 64 * self.bit_of(first + 6)
            + 128 * self.bit_of(first + 7)
    }

    // Returns 1 if the part `number` is kept, otherwise 0.
    fn bit_of(&self, number: usize) -> u8
        requires numbered { 0 < number }
        ensures bit { result ≡ bit_of self.now.parts number }
        ensures small { result ≤ 1 }
    {
        match self.parts.get(number - 1) {
            Some(Some(_)) => 1,
            Some(None) | None => 0,
        }
    }

    // Whether they are of this version and count.
    pub(crate) fn are_of(&self, version: u32, count: u8) -> bool
        ensures { result ≡ ((self.now.version == version) && (length self.now.parts == count)) }
    {
        self.version == version && self.parts.len() == usize::from(count)
    }

    // Keeps a part, and drops one of its number.
    pub(crate) fn put(&mut self, part: u8, records: Seq<Record>)
        requires numbered { (0 < part) × (part - 1 < length self.old.parts) }
        requires good { AllByRecursion IsGoodRecord records }
        ensures { self.new ≡ with_part self.old part records }
    {
        self.parts[usize::from(part) - 1] = Some(records);
    }

    // Returns all records, if this part is the only one that isn't kept.
    fn whole_with<'a>(&'a self, part: u8, records: &'a [Record]) -> Option<Walk<'a>>
        requires numbered { (0 < part) × (part - 1 < length self.now.parts) }
        requires good { AllByRecursion IsGoodRecord records.now }
        ensures whole { joined (slice_set self.now.parts (part - 1) (Some records.now)) ≡ option_map left result }
        ensures good { IfSome result (λ walk. AllByRecursion IsGoodRecord (left walk)) }
    {
        let (front, _) = self.parts.split_at(usize::from(part) - 1);
        let (_, back) = self.parts.split_at(usize::from(part));
        if are_there(front) && are_there(back) {
            Some(Walk {
                here: &[],
                front,
                part: records,
                back,
            })
        } else {
            None
        }
    }
}

// Whether the kept parts are of a later version.
pub(crate) fn is_behind(version: u32, kept: &Option<KeptParts>) -> bool
    ensures { result ≡ is_behind version kept.now }
{
    match kept {
        Some(kept) => version < kept.version(),
        None => false,
    }
}

// Returns all records of a version, if this part is the only one that isn't kept.
pub(crate) fn whole_set<'a>(
    kept: &'a Option<KeptParts>,
    version: u32,
    part: u8,
    count: u8,
    records: &'a [Record],
) -> Option<Walk<'a>>
    requires numbered { (0 < part) × (part ≤ count) }
    requires good { AllByRecursion IsGoodRecord records.now }
    ensures whole { joined (with_part (set_for kept.now version count) part records.now).parts ≡ option_map left result }
    ensures good { IfSome result (λ walk. AllByRecursion IsGoodRecord (left walk)) }
{
    match kept {
        Some(kept) => {
            if kept.are_of(version, count) {
                kept.whole_with(part, records)
            } else {
                whole_alone(count, records)
            }
        }
        None => whole_alone(count, records),
    }
}

// Returns the records of a part that is the only one.
fn whole_alone(count: u8, records: &[Record]) -> Option<Walk<'_>>
    requires good { AllByRecursion IsGoodRecord records.now }
    ensures whole { option_map left result ≡ (if count == 1 then Some records.now else None) }
    ensures good { IfSome result (λ walk. AllByRecursion IsGoodRecord (left walk)) }
{
    if count == 1 {
        Some(Walk {
            here: records,
            front: &[],
            part: &[],
            back: &[],
        })
    } else {
        None
    }
}

// Keeps a part, with the others of its version and count, or alone if there are none.
pub(crate) fn keep_part(
    alloc: Global,
    kept: &mut Option<KeptParts>,
    version: u32,
    part: u8,
    count: u8,
    records: &Seq<Record>,
) -> Result<(), NoMemory>
    requires numbered { (0 < part) × (part ≤ count) }
    requires good { AllByRecursion IsGoodRecord records.now }
    ensures ok { OnOk result (kept.new ≡ Some (with_part (set_for kept.old version count) part records.now)) }
    ensures err { OnErr result (kept.new ≡ kept.old) }
{
    let records = records.copy(alloc)?;
    match kept {
        Some(set) if set.are_of(version, count) => {
            set.put(part, records);
            Ok(())
        }
        Some(_) | None => {
            let mut set = KeptParts::empty(alloc, version, count)?;
            set.put(part, records);
            *kept = Some(set);
            Ok(())
        }
    }
}

fn are_there(parts: &[Option<Seq<Record>>]) -> bool
    ensures { result ≡ list_all is_some parts.now }
{
    parts.iter().all(Option::is_some)
}
