// The body of an answer that is being written.
ghost use Rattle.std.specs.Prelude.{◌≤◌, vec_len};
ghost use Rattle.page.specs.declared.sheet.TheConstants.{MAX_PAGE};

use crate::marks::{are_bare, hidden, is_bare, is_markup, reference};
use bytetext::{Failure, NoMemory};
use flagexpr::Flags;
use httpdate::HttpDate;
use itoa::Buffer;
use std::alloc::Global;
use std::marker::Model;
use std::net::SocketAddr;
use std::str;

/// The most bytes of the body of an answer.
pub const MAX_PAGE: usize = 1_048_576;

// The body would be longer than `MAX_PAGE` bytes.
#[derive(Clone, Copy)]
pub(crate) struct TooLong;

// Why something was not written.
pub(crate) type SheetError = Failure<TooLong>;

// The body of an answer, or its head. Contracts see its bytes, each of which is LF, CR or a space to `~`, and whether
// all is there that was to be written. A sheet that lacks something takes nothing more, and `finish` says why: so whoever
// writes looks at no single step.
pub(crate) struct Sheet {
    alloc: Global,
    bytes: Vec<u8>,
    // Why something is not there.
    fault: Option<SheetError>,
    ghost fits: { vec_len bytes ≤ MAX_PAGE },
}

// By hand, so that this is proved once, and not in each function in which one ends.
impl Drop for Sheet {
    fn drop(self) {
        let Sheet {
            alloc: _,
            bytes: _,
            fault: _,
        } = self;
    }
}

impl Model for Sheet {
    ghost use Rattle.std.specs.Option.{is_none};
    ghost use Rattle.page.specs.Marks.{ArePrinted};
    ghost use Rattle.page.specs.Writing.{Written};

    ghost Value = { Written };

    ghost view = { λ sheet. record { bytes = sheet.bytes.items; is_whole = is_none sheet.fault } };

    ghost invariant = { λ sheet. ArePrinted sheet.bytes.items };
}

impl Sheet {
    ghost use Rattle.std.specs.Prelude.{◌≡◌, ◌≤◌, IfOk, decimal, false, length, true};
    ghost use Rattle.std.specs.List.{flat_map};
    ghost use Rattle.std.specs.Str.{chars};
    ghost use Rattle.flagexpr.specs.Letters.{spelling};
    ghost use Rattle.page.specs.Marks.{ArePrinted, numbered, shown_byte, shown_char, shown_text};
    ghost use Rattle.page.specs.Writing.{Adds, nothing};
    ghost use Rattle.page.specs.declared.sheet.TheConstants.{MAX_PAGE};

    // An empty body. Does not allocate.
    pub(crate) fn new(alloc: Global) -> Sheet
        ensures { result ≡ nothing }
    {
        Sheet {
            alloc,
            bytes: Vec::new(alloc),
            fault: None,
        }
    }

    // Returns the number of bytes.
    pub(crate) fn len(&self) -> usize
        ensures { result ≡ length self.now.bytes }
    {
        self.bytes.len()
    }

    // Appends `words` as they are.
    pub(crate) fn put(&mut self, words: &[u8])
        requires printed { ArePrinted words.now }
        ensures { Adds self.old words.now self.new }
    {
        if self.fault.is_some() {
            return;
        }
        if words.len() > MAX_PAGE - self.bytes.len() {
            self.fault = Some(Failure::Refused(TooLong));
        } else if self.bytes.extend_from_slice(words).is_err() {
            self.fault = Some(Failure::NoMemory);
        }
    }

    // Notes that no memory is left for something that was to be written.
    fn lack_memory(&mut self)
        ensures { self.new.is_whole ≡ false }
    {
        if self.fault.is_none() {
            self.fault = Some(Failure::NoMemory);
        }
    }

    // Appends `number` in base ten.
    pub(crate) fn put_number(&mut self, number: u64)
        ensures { Adds self.old (decimal number) self.new }
    {
        let mut buffer = Buffer::new();
        self.put(buffer.format(number).as_bytes());
    }

    // Appends a text from outside, in which nothing is markup or a control byte.
    #[tactic(auto, using(crate::proofs::MarkLemmas::bare_printed))]
    pub(crate) fn put_text(&mut self, text: &[u8])
        ensures { Adds self.old (shown_text text.now) self.new }
    {
        if are_bare(text) {
            return self.put(text);
        }
        match str::from_utf8(text) {
            Ok(text) => self.put_chars(text),
            Err(_) => self.put_bytes(text),
        }
    }

    // Appends the characters of a text.
    fn put_chars(&mut self, text: &str)
        ensures { Adds self.old (flat_map shown_char (chars text.now)) self.new }
    {
        for c in text.chars() {
            self.put_char(c as u32);
        }
    }

    // Appends the bytes of a text that is not UTF-8.
    fn put_bytes(&mut self, text: &[u8])
        ensures { Adds self.old (flat_map shown_byte text.now) self.new }
    {
        for byte in text {
            self.put_byte(*byte);
        }
    }

    fn put_byte(&mut self, byte: u8)
        ensures { Adds self.old (shown_byte byte) self.new }
    {
        if byte < 128 {
            self.put_char(u32::from(byte));
        } else {
            self.put(&hidden(u32::from(byte)));
        }
    }

    fn put_char(&mut self, c: u32)
        ensures { Adds self.old (shown_char c) self.new }
    {
        if is_bare(c) {
            self.put(&[c as u8]);
        } else if is_markup(c) {
            self.put(reference(c));
        } else if c < 160 {
            self.put(&hidden(c));
        } else {
            self.put_reference(c);
        }
    }

    // Appends a reference to a character by its number.
    fn put_reference(&mut self, c: u32)
        ensures { Adds self.old (numbered c) self.new }
    {
        self.put(b"&#");
        self.put_number(u64::from(c.min(1_114_111)));
        self.put(b";");
    }

    // Appends a second as a date (RFC 9110 section 5.6.7), or as its number after the year 9999.
    pub(crate) fn put_time(&mut self, second: u64) {
        match HttpDate::from_unix_secs(second) {
            Ok(date) => self.put_text(&date.to_bytes()),
            Err(_) => self.put_number(second),
        }
    }

    // Appends the letters of flags, or `-` if there are none.
    pub(crate) fn put_letters(&mut self, flags: Flags)
        ensures { Adds self.old (shown_text (spelling flags)) self.new }
    {
        match flags.text(self.alloc) {
            Ok(letters) => self.put_text(letters.as_bytes()),
            Err(NoMemory) => self.lack_memory(),
        }
    }

    // Appends an address and its port.
    pub(crate) fn put_address(&mut self, address: SocketAddr) {
        match format!(in self.alloc; "{}", address) {
            Ok(text) => self.put_text(text.as_bytes()),
            Err(_) => self.lack_memory(),
        }
    }

    // Returns the bytes, or why something is not there. Does not allocate.
    pub(crate) fn finish(self) -> Result<Vec<u8>, SheetError>
        ensures whole { IfOk result (λ bytes. self ≡ record { bytes = bytes.items; is_whole = true }) }
        ensures printed { IfOk result (λ bytes. ArePrinted bytes.items) }
        ensures bound { IfOk result (λ bytes. length bytes.items ≤ MAX_PAGE) }
    {
        let Sheet {
            alloc: _,
            bytes,
            fault,
        } = self;
        match fault {
            Some(fault) => Err(fault),
            None => Ok(bytes),
        }
    }
}
