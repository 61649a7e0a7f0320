// Reads the fields at the front of some bytes.
ghost use Rattle.std.specs.Prelude.{◌≡◌};

use crate::change_fields::{change, nameless_change};
use crate::fault::{CodecError, CodecFault};
use crate::fault_byte::fault_of_byte;
use crate::old::change_old;
use crate::record_lists::{pass_records, tagged_records, tagged_records_old};
use crate::records::{Record, tagged_record};
use bytetext::Failure;
use flagexpr::Flags;
use rfccase::is_channel_name;
use std::alloc::Global;
use std::marker::Model;
use userfile::{
    Change, ChangeFault, is_ban_channel, is_comment, is_handle, is_hostmask, is_info, is_person,
};

/// Reads fields from the front of some bytes, one after the other. Contracts see the bytes that are still to be read.
///
/// Each call returns a field and steps over it. A call that returns an error leaves the reader unchanged. Numbers have
/// their most significant byte first. Only [`change`](Reader::change), [`record`](Reader::record),
/// [`records`](Reader::records) and those of older layouts allocate.
///
/// ```text
/// let mut reader = Reader::new(b"\x00\x02\x07alice");
/// reader.u16()?       // 2
/// reader.byte()?      // 7
/// reader.bytes(5)?    // alice
/// reader.byte()       // Short
/// ```
#[derive(Drop)]
pub struct Reader<'a> {
    rest: &'a [u8],
}

impl<'a> Model for Reader<'a> {
    ghost use Rattle.std.specs.Prelude.{List, ℕ};

    ghost Value = { List ℕ };

    ghost view = { λ r. r.rest.now };
}

impl<'a> Reader<'a> {
    ghost use Rattle.std.specs.Prelude.{◌≡◌, ◌<◌, ◌↔◌, [], length, IfOk, IfErr, OnErr, IsTrue};
    ghost use Rattle.std.specs.Int.{w16, w32};
    ghost use Rattle.usercodec.specs.Answers.{Gives, Makes, Passes, Finds};
    ghost use Rattle.usercodec.specs.Fields.{byte_at, bytes_at, number_at};
    ghost use Rattle.usercodec.specs.FaultBytes.{fault_at};
    ghost use Rattle.usercodec.specs.Changes.{change_at};
    ghost use Rattle.usercodec.specs.Records.{record_at, so_many_records_at};
    ghost use Rattle.usercodec.specs.Old.{nameless_change_at, change_at_old, so_many_records_at_old};

    /// Creates a reader at the beginning of `bytes`.
    pub fn new(bytes: &'a [u8]) -> Reader<'a>
        ensures { result ≡ bytes.now }
    {
        Reader { rest: bytes }
    }

    /// Returns whether no byte is left.
    pub fn is_empty(&self) -> bool
        ensures { IsTrue result ↔ (self.now ≡ []) }
    {
        self.rest.is_empty()
    }

    /// Reads `count` bytes.
    ///
    /// # Errors
    /// `Refused` with [`CodecFault::Short`] if fewer are left.
    #[tactic(auto, unfolding(crate::specs::Fields::bytes_at))]
    pub fn bytes(&mut self, count: usize) -> Result<&'a [u8], CodecError>
        ensures value { Gives (λ bytes. (bytes.now, self.new)) result (bytes_at count self.old) }
        ensures length { IfOk result (λ bytes. length bytes.now ≡ count) }
        ensures unchanged { OnErr result (self.new ≡ self.old) }
    {
        if self.rest.len() < count {
            return Err(Failure::Refused(CodecFault::Short));
        }
        let (front, rest) = self.rest.split_at(count);
        self.rest = rest;
        Ok(front)
    }

    /// Reads one byte.
    ///
    /// # Errors
    /// `Refused` with [`CodecFault::Short`] if none is left.
    #[tactic(auto, unfolding(crate::specs::Fields::byte_at))]
    pub fn byte(&mut self) -> Result<u8, CodecError>
        ensures value { Gives (λ byte. (byte, self.new)) result (byte_at self.old) }
        ensures unchanged { OnErr result (self.new ≡ self.old) }
    {
        match self.rest {
            [] => Err(Failure::Refused(CodecFault::Short)),
            [byte, rest @ ..] => {
                let byte = *byte;
                self.rest = rest;
                Ok(byte)
            }
        }
    }

    /// Reads a number of two bytes.
    ///
    /// # Errors
    /// Those of [`bytes`](Reader::bytes).
    #[tactic(auto, unfolding(crate::specs::Fields::number_at))]
    pub fn u16(&mut self) -> Result<u16, CodecError>
        ensures value { Gives (λ n. (n, self.new)) result (number_at w16 self.old) }
        ensures unchanged { OnErr result (self.new ≡ self.old) }
    {
        let digits = self.bytes(2)?;
        Ok(u16::from_be_bytes([digits[0], digits[1]]))
    }

    /// Reads a number of four bytes.
    ///
    /// # Errors
    /// Those of [`bytes`](Reader::bytes).
    #[tactic(auto, unfolding(crate::specs::Fields::number_at))]
    pub fn u32(&mut self) -> Result<u32, CodecError>
        ensures value { Gives (λ n. (n, self.new)) result (number_at w32 self.old) }
        ensures unchanged { OnErr result (self.new ≡ self.old) }
    {
        let digits = self.bytes(4)?;
        Ok(u32::from_be_bytes([digits[0], digits[1], digits[2], digits[3]]))
    }

    /// Reads the byte that says why the userfile refused a change: see [`fault_of_byte`].
    ///
    /// # Errors
    /// `Refused` with [`CodecFault::Short`] if no byte is left, with `NotCanonical` if the byte stands for no fault.
    #[tactic(auto, unfolding(crate::specs::FaultBytes::fault_at, crate::specs::Fields::byte_at))]
    pub fn fault(&mut self) -> Result<ChangeFault, CodecError>
        ensures value { Gives (λ fault. (fault, self.new)) result (fault_at self.old) }
        ensures unchanged { OnErr result (self.new ≡ self.old) }
    {
        let mut ahead = Reader { rest: self.rest };
        let byte = ahead.byte()?;
        match fault_of_byte(byte) {
            Some(fault) => {
                self.rest = ahead.rest;
                Ok(fault)
            }
            None => Err(Failure::Refused(CodecFault::NotCanonical)),
        }
    }

    /// Reads a change: see [`read_change`](crate::read_change).
    ///
    /// # Errors
    /// `Refused` with the first fault of the bytes from the left, `NoMemory` if there is no fault and the change's
    /// texts cannot be allocated.
    pub fn change(&mut self, alloc: Global) -> Result<Change, CodecError>
        ensures value { Makes (λ change. (change, self.new)) result (change_at self.old) }
        ensures unchanged { OnErr result (self.new ≡ self.old) }
    {
        let mut ahead = Reader { rest: self.rest };
        let change = change(alloc, &mut ahead)?;
        self.rest = ahead.rest;
        Ok(change)
    }

    /// Reads a record: see [`read_record`](crate::read_record).
    ///
    /// # Errors
    /// `Refused` with the first fault of the bytes from the left, `NoMemory` if there is no fault and the record cannot
    /// be allocated.
    pub fn record(&mut self, alloc: Global) -> Result<Record, CodecError>
        ensures value { Makes (λ value. (value, self.new)) result (record_at self.old) }
        ensures unchanged { OnErr result (self.new ≡ self.old) }
    {
        let mut ahead = Reader { rest: self.rest };
        let value = tagged_record(alloc, &mut ahead)?;
        self.rest = ahead.rest;
        Ok(value)
    }

    /// Reads `count` records, one after the other.
    ///
    /// # Errors
    /// `Refused` with the first fault of the bytes from the left. `NoMemory` if a record cannot be allocated; bytes
    /// that were not read yet may then have a fault. Neither if `count` is 0.
    pub fn records(&mut self, alloc: Global, count: usize) -> Result<Vec<Record>, CodecError>
        ensures value { Finds (λ records. (records.items, self.new)) result (so_many_records_at count self.old) }
        // Reading no records neither allocates nor fails.
        ensures memory { IfErr result (λ _. 0 < count) }
        ensures unchanged { OnErr result (self.new ≡ self.old) }
    {
        let mut ahead = Reader { rest: self.rest };
        let records = tagged_records(alloc, &mut ahead, count)?;
        self.rest = ahead.rest;
        Ok(records)
    }

    /// Passes over `count` records, one after the other, without building them. Allocates nothing.
    ///
    /// # Errors
    /// `Refused` with the first fault of the bytes from the left.
    pub fn pass_records(&mut self, count: usize) -> Result<(), CodecError>
        ensures value { Passes result (so_many_records_at count self.old) self.new }
        ensures unchanged { OnErr result (self.new ≡ self.old) }
    {
        let mut ahead = Reader { rest: self.rest };
        pass_records(&mut ahead, count)?;
        self.rest = ahead.rest;
        Ok(())
    }

    /// Reads a change as the layouts 2 and 3 spelled it: see [`read_nameless_change`](crate::read_nameless_change).
    ///
    /// # Errors
    /// Those of [`change`](Reader::change).
    pub fn nameless_change(&mut self, alloc: Global) -> Result<Change, CodecError>
        ensures value { Makes (λ change. (change, self.new)) result (nameless_change_at self.old) }
        ensures unchanged { OnErr result (self.new ≡ self.old) }
    {
        let mut ahead = Reader { rest: self.rest };
        let change = nameless_change(alloc, &mut ahead)?;
        self.rest = ahead.rest;
        Ok(change)
    }

    /// Reads a change as layout 1 spelled it: see [`read_change_old`](crate::read_change_old).
    ///
    /// # Errors
    /// Those of [`change`](Reader::change).
    pub fn change_old(&mut self, alloc: Global) -> Result<Change, CodecError>
        ensures value { Makes (λ change. (change, self.new)) result (change_at_old self.old) }
        ensures unchanged { OnErr result (self.new ≡ self.old) }
    {
        let mut ahead = Reader { rest: self.rest };
        let change = change_old(alloc, &mut ahead)?;
        self.rest = ahead.rest;
        Ok(change)
    }

    /// Reads `count` records as layout 1 spelled them, one after the other: see
    /// [`read_record_old`](crate::read_record_old).
    ///
    /// # Errors
    /// Those of [`records`](Reader::records).
    pub fn records_old(&mut self, alloc: Global, count: usize) -> Result<Vec<Record>, CodecError>
        ensures value { Finds (λ records. (records.items, self.new)) result (so_many_records_at_old count self.old) }
        ensures memory { IfErr result (λ _. 0 < count) }
        ensures unchanged { OnErr result (self.new ≡ self.old) }
    {
        let mut ahead = Reader { rest: self.rest };
        let records = tagged_records_old(alloc, &mut ahead, count)?;
        self.rest = ahead.rest;
        Ok(records)
    }
}

// The fields of changes and records. The clauses do not say where a fault leaves the reader.
impl<'a> Reader<'a> {
    ghost use Rattle.std.specs.Prelude.{◌≡◌, ◌≤◌, length, IfOk};
    ghost use Rattle.std.specs.Int.{w64};
    ghost use Rattle.usercodec.specs.Answers.{Gives};
    ghost use Rattle.usercodec.specs.Fields.{number_at, text_at, count_at, flags_at};
    ghost use Rattle.usercodec.specs.Fields.{handle_at, hostmask_at, channel_at, ban_channel_at, comment_at, info_at, mark_at, person_at};

    // The number of bytes that are left.
    pub(crate) fn len(&self) -> usize
        ensures { result ≡ length self.now }
    {
        self.rest.len()
    }

    #[tactic(auto, unfolding(crate::specs::Fields::number_at))]
    pub(crate) fn u64(&mut self) -> Result<u64, CodecError>
        ensures { Gives (λ n. (n, self.new)) result (number_at w64 self.old) }
    {
        let digits = self.bytes(8)?;
        Ok(u64::from_be_bytes([
            digits[0], digits[1], digits[2], digits[3], digits[4], digits[5], digits[6], digits[7],
        ]))
    }

    #[tactic(auto, unfolding(crate::specs::Fields::text_at))]
    fn text(&mut self) -> Result<&'a [u8], CodecError>
        ensures { Gives (λ text. (text.now, self.new)) result (text_at self.old) }
    {
        let count = self.byte()?;
        self.bytes(count as usize)
    }

    #[tactic(auto, unfolding(crate::specs::Fields::count_at))]
    pub(crate) fn count(&mut self, most: usize) -> Result<usize, CodecError>
        ensures count { Gives (λ n. (n, self.new)) result (count_at most self.old) }
        ensures few { IfOk result (λ n. n ≤ most) }
    {
        let count = self.byte()? as usize;
        keep_if(count <= most, count)
    }

    #[tactic(auto, unfolding(crate::specs::Fields::flags_at))]
    pub(crate) fn flags(&mut self) -> Result<Flags, CodecError>
        ensures { Gives (λ flags. (flags, self.new)) result (flags_at self.old) }
    {
        let bits = self.u64()?;
        match Flags::from_bits(bits) {
            Some(flags) => Ok(flags),
            None => Err(Failure::Refused(CodecFault::NotCanonical)),
        }
    }

    #[tactic(auto, unfolding(crate::specs::Fields::handle_at))]
    pub(crate) fn handle(&mut self) -> Result<&'a [u8], CodecError>
        ensures { Gives (λ text. (text.now, self.new)) result (handle_at self.old) }
    {
        let text = self.text()?;
        keep_if(is_handle(text), text)
    }

    #[tactic(auto, unfolding(crate::specs::Fields::hostmask_at))]
    pub(crate) fn hostmask(&mut self) -> Result<&'a [u8], CodecError>
        ensures { Gives (λ text. (text.now, self.new)) result (hostmask_at self.old) }
    {
        let text = self.text()?;
        keep_if(is_hostmask(text), text)
    }

    #[tactic(auto, unfolding(crate::specs::Fields::person_at))]
    pub(crate) fn person(&mut self) -> Result<&'a [u8], CodecError>
        ensures { Gives (λ text. (text.now, self.new)) result (person_at self.old) }
    {
        let text = self.text()?;
        keep_if(is_person(text), text)
    }

    #[tactic(auto, unfolding(crate::specs::Fields::channel_at))]
    pub(crate) fn channel(&mut self) -> Result<&'a [u8], CodecError>
        ensures { Gives (λ text. (text.now, self.new)) result (channel_at self.old) }
    {
        let text = self.text()?;
        keep_if(is_channel_name(text), text)
    }

    #[tactic(auto, unfolding(crate::specs::Fields::ban_channel_at))]
    pub(crate) fn ban_channel(&mut self) -> Result<&'a [u8], CodecError>
        ensures { Gives (λ text. (text.now, self.new)) result (ban_channel_at self.old) }
    {
        let text = self.text()?;
        keep_if(is_ban_channel(text), text)
    }

    #[tactic(auto, unfolding(crate::specs::Fields::comment_at))]
    pub(crate) fn comment(&mut self) -> Result<&'a [u8], CodecError>
        ensures { Gives (λ text. (text.now, self.new)) result (comment_at self.old) }
    {
        let text = self.text()?;
        keep_if(is_comment(text), text)
    }

    #[tactic(auto, unfolding(crate::specs::Fields::info_at))]
    pub(crate) fn info(&mut self) -> Result<&'a [u8], CodecError>
        ensures { Gives (λ text. (text.now, self.new)) result (info_at self.old) }
    {
        let text = self.text()?;
        keep_if(is_info(text), text)
    }

    #[tactic(auto, unfolding(crate::specs::Fields::mark_at))]
    pub(crate) fn mark(&mut self) -> Result<bool, CodecError>
        ensures { Gives (λ on. (on, self.new)) result (mark_at self.old) }
    {
        let byte = self.byte()?;
        let byte = keep_if(byte <= 1, byte)?;
        Ok(byte == 1)
    }
}

ghost use Rattle.std.specs.Prelude.{Ok, Err, if◌then◌else◌};
ghost use Rattle.bytetext.specs.declared.failure.Failure.TheVariants.{Refused};
ghost use Rattle.usercodec.specs.declared.fault.CodecFault.TheVariants.{NotCanonical};

// Returns a complete field if it passes its test, else `NotCanonical`.
pub(crate) fn keep_if<T: Drop>(test: bool, field: T) -> Result<T, CodecError>
    ensures { result ≡ (if test then Ok field else Err (Refused NotCanonical)) }
{
    if test {
        Ok(field)
    } else {
        Err(Failure::Refused(CodecFault::NotCanonical))
    }
}
