// A line of JSON that is being written.
use bytetext::NoMemory;
use itoa::Buffer;
use std::alloc::Global;
use std::marker::Model;

/// A line of JSON that is being written. Contracts see its bytes, each of which is a space to `~`.
///
/// ```text
/// let mut line = JsonLine::new(alloc);
/// line.put_first(b"nick")?;
/// line.put_text(b"egg\x02")?;
/// line.put_words(b"}")?;
/// line.finish()?                       // {"nick":"egg\u0002"}
/// ```
#[derive(Drop)]
pub struct JsonLine {
    bytes: Vec<u8>,
}

impl Model for JsonLine {
    ghost use Rattle.std.specs.Prelude.{List, ℕ};
    ghost use Rattle.recordjson.specs.Words.{ArePlain};

    ghost Value = { List ℕ };

    ghost view = { λ line. line.bytes.items };

    ghost invariant = { λ line. ArePlain line.bytes.items };
}

impl JsonLine {
    ghost use Rattle.std.specs.Prelude.{◌≡◌, ◌<◌, ◌∷◌, ◌++◌, [], OnOk, IfOk, decimal};
    ghost use Rattle.recordjson.specs.Words.{comma, first, next, or_null, quoted, second_or_null, spelled, spelled_byte, truth, ArePlain, IsPlainLine};

    /// Creates an empty line. Does not allocate.
    pub fn new(alloc: Global) -> JsonLine
        ensures { result ≡ [] }
    {
        JsonLine {
            bytes: Vec::new(alloc),
        }
    }

    /// Appends `words` as they are: brackets, commas, names and literals.
    ///
    /// # Errors
    /// `NoMemory` if an allocation fails.
    pub fn put_words(&mut self, words: &[u8]) -> Result<(), NoMemory>
        requires plain { ArePlain words.now }
        ensures { OnOk result (self.new ≡ self.old ++ words.now) }
    {
        self.bytes.extend_from_slice(words)?;
        Ok(())
    }

    /// Appends the bracket that opens an object, and the `name` of its first member.
    ///
    /// # Errors
    /// `NoMemory` if an allocation fails.
    #[tactic(auto, using(std::proofs::Common::append_assoc), unfolding(crate::specs::Words::first))]
    pub fn put_first(&mut self, name: &[u8]) -> Result<(), NoMemory>
        requires plain { ArePlain name.now }
        ensures { OnOk result (self.new ≡ self.old ++ first name.now) }
    {
        self.put_words(b"{\"")?;
        self.put_words(name)?;
        self.put_words(b"\":")
    }

    /// Appends a comma, and the `name` of an object's next member.
    ///
    /// # Errors
    /// `NoMemory` if an allocation fails.
    #[tactic(auto, using(std::proofs::Common::append_assoc), unfolding(crate::specs::Words::next))]
    pub fn put_next(&mut self, name: &[u8]) -> Result<(), NoMemory>
        requires plain { ArePlain name.now }
        ensures { OnOk result (self.new ≡ self.old ++ next name.now) }
    {
        self.put_words(b",\"")?;
        self.put_words(name)?;
        self.put_words(b"\":")
    }

    /// Appends `number` in base ten.
    ///
    /// # Errors
    /// `NoMemory` if an allocation fails.
    pub fn put_number(&mut self, number: u64) -> Result<(), NoMemory>
        ensures { OnOk result (self.new ≡ self.old ++ decimal number) }
    {
        let mut buffer = Buffer::new();
        self.put_words(buffer.format(number).as_bytes())
    }

    /// Appends `text` as a string: one character for each byte, U+0000 to U+00FF.
    ///
    /// # Errors
    /// `NoMemory` if an allocation fails.
    #[tactic(auto, using(std::proofs::Common::append_assoc), unfolding(crate::specs::Words::quoted))]
    pub fn put_text(&mut self, text: &[u8]) -> Result<(), NoMemory>
        ensures { OnOk result (self.new ≡ self.old ++ quoted text.now) }
    {
        self.put_words(b"\"")?;
        self.put_bytes(text)?;
        self.put_words(b"\"")
    }

    // Appends the inside of a string.
    fn put_bytes(&mut self, text: &[u8]) -> Result<(), NoMemory>
        ensures { OnOk result (self.new ≡ self.old ++ spelled text.now) }
    {
        for byte in text {
            self.put_byte(*byte)?;
        }
        Ok(())
    }

    // Appends one character of a string.
    fn put_byte(&mut self, byte: u8) -> Result<(), NoMemory>
        ensures { OnOk result (self.new ≡ self.old ++ spelled_byte byte) }
    {
        if is_bare(byte) {
            self.put_words(&[byte])
        } else {
            self.put_words(&[b'\\', b'u', b'0', b'0', hex(byte / 16), hex(byte % 16)])
        }
    }

    /// Appends `text` as a string, or `null` if it is empty.
    ///
    /// # Errors
    /// `NoMemory` if an allocation fails.
    pub fn put_text_or_null(&mut self, text: &[u8]) -> Result<(), NoMemory>
        ensures { OnOk result (self.new ≡ self.old ++ or_null text.now) }
    {
        if text.is_empty() {
            self.put_words(b"null")
        } else {
            self.put_text(text)
        }
    }

    /// Appends a second, or `null` if `second` is 0.
    ///
    /// # Errors
    /// `NoMemory` if an allocation fails.
    pub fn put_second(&mut self, second: u64) -> Result<(), NoMemory>
        ensures { OnOk result (self.new ≡ self.old ++ second_or_null second) }
    {
        if second == 0 {
            self.put_words(b"null")
        } else {
            self.put_number(second)
        }
    }

    /// Appends `true` or `false`.
    ///
    /// # Errors
    /// `NoMemory` if an allocation fails.
    pub fn put_truth(&mut self, holds: bool) -> Result<(), NoMemory>
        ensures { OnOk result (self.new ≡ self.old ++ truth holds) }
    {
        if holds {
            self.put_words(b"true")
        } else {
            self.put_words(b"false")
        }
    }

    /// Appends the comma that stands before the member at index `place` of a list: none before the first.
    ///
    /// # Errors
    /// `NoMemory` if an allocation fails.
    pub fn put_comma(&mut self, place: usize) -> Result<(), NoMemory>
        ensures { OnOk result (self.new ≡ self.old ++ comma place) }
    {
        if place == 0 {
            Ok(())
        } else {
            self.put_words(b",")
        }
    }

    /// Returns the line with its line feed.
    ///
    /// # Errors
    /// `NoMemory` if an allocation fails.
    pub fn finish(self) -> Result<Vec<u8>, NoMemory>
        ensures line { IfOk result (λ line. line.items ≡ self ++ 10 ∷ []) }
        ensures plain { IfOk result (λ line. IsPlainLine line.items) }
    {
        let mut bytes = self.bytes;
        bytes.push(b'\n')?;
        Ok(bytes)
    }
}

ghost use Rattle.std.specs.Prelude.{◌≡◌, ◌<◌};
ghost use Rattle.std.specs.Char.{digit_char};
ghost use Rattle.recordjson.specs.Words.{is_bare};

// Whether a byte of a string stands for itself.
fn is_bare(byte: u8) -> bool
    ensures { result ≡ is_bare byte }
{
    (32..=126).contains(&byte) && byte != b'"' && byte != b'\\'
}

// The character of a digit below 16.
fn hex(digit: u8) -> u8
    requires { digit < 16 }
    ensures { result ≡ digit_char digit }
{
    if digit < 10 {
        b'0' + digit
    } else {
        b'a' - 10 + digit
    }
}
