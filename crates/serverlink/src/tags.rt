// The tags of a server's lines.
ghost use Rattle.std.specs.Prelude.{◌≡◌, ◌≤◌, length, take, IfSome};
ghost use Rattle.ircline.specs.Classes.{is_end};
ghost use Rattle.serverlink.specs.Tags.{is_plain, is_rest, next, passes, stage_after, untagged, within};

use ircline::first_end;

/// Where in a line the bytes of a server ended. By it the tags that stand before a line (IRCv3 message tags) are dropped in
/// whatever pieces the line comes: `@`, all bytes up to the first space, and the spaces after. They are dropped whatever
/// their length: nothing of them is kept, so the 8,190 bytes that a server may send of them need not be counted. A line of
/// tags alone is empty.
///
/// No server sends tags unless a client asks for them, and the process asks for no such capability.
#[derive(Clone, Copy, Debug, PartialEq, Eq)]
pub enum TagStage {
    /// Before the first byte of a line.
    Front,
    /// In the tags.
    Tags,
    /// In the spaces after the tags.
    Gap,
    /// In the line itself.
    Rest,
}

impl TagStage {
    /// Drops the tags from `bytes`, the next bytes of the server. Allocates nothing.
    pub fn drop_tags(&mut self, bytes: &mut Vec<u8>)
        ensures bytes { bytes.new.items ≡ untagged self.old bytes.old.items }
        ensures stage { self.new ≡ stage_after self.old bytes.old.items }
    {
        if let Some(stage) = self.after_plain(bytes.as_slice()) {
            *self = stage;
            return;
        }
        let kept = self.move_to_front(bytes.as_mut_slice());
        bytes.truncate(kept);
    }

    // Where `bytes` end if none of them is a tag's, looked at line by line; `None` if a line of them may have tags.
    fn after_plain(&self, bytes: &[u8]) -> Option<TagStage>
        ensures bytes { IfSome result (λ _. untagged self.now bytes.now ≡ bytes.now) }
        ensures stage { IfSome result (λ stage. stage ≡ stage_after self.now bytes.now) }
    {
        let mut stage = *self;
        let mut rest = bytes;
        while let Some(place) = first_end(rest) {
            if !stage.is_plain(rest) {
                return None;
            }
            stage = TagStage::Front;
            rest = &rest[place + 1..];
        }
        if rest.is_empty() {
            Some(stage)
        } else if stage.is_plain(rest) {
            Some(TagStage::Rest)
        } else {
            None
        }
    }

    // Whether the bytes that come next, up to the end of their line, are no tags'.
    fn is_plain(&self, bytes: &[u8]) -> bool
        ensures { result ≡ is_plain self.now bytes.now }
    {
        match self {
            TagStage::Front => !matches!(bytes, [b'@', ..]),
            TagStage::Tags | TagStage::Gap => false,
            TagStage::Rest => true,
        }
    }

    // Moves the bytes that pass to the front, in order. Returns how many they are.
    fn move_to_front(&mut self, bytes: &mut [u8]) -> usize
        ensures kept { take result bytes.new ≡ untagged self.old bytes.old }
        ensures few { result ≤ length bytes.old }
        ensures stage { self.new ≡ stage_after self.old bytes.old }
    {
        let mut kept = 0;
        for place in 0..bytes.len() {
            let byte = bytes[place];
            if self.take(byte) {
                bytes[kept] = byte;
                kept += 1;
            }
        }
        kept
    }

    // Takes the next byte. Returns whether it passes.
    fn take(&mut self, byte: u8) -> bool
        ensures passes { result ≡ passes self.old byte }
        ensures next { self.new ≡ next self.old byte }
    {
        if is_end(byte) {
            *self = TagStage::Front;
            return true;
        }
        *self = self.within(byte);
        self.is_rest()
    }

    // Where a byte that ends no line stands.
    fn within(&self, byte: u8) -> TagStage
        ensures { result ≡ within self.now byte }
    {
        match self {
            TagStage::Front if byte == b'@' => TagStage::Tags,
            TagStage::Front => TagStage::Rest,
            TagStage::Tags if byte == b' ' => TagStage::Gap,
            TagStage::Tags => TagStage::Tags,
            TagStage::Gap if byte == b' ' => TagStage::Gap,
            TagStage::Gap => TagStage::Rest,
            TagStage::Rest => TagStage::Rest,
        }
    }

    fn is_rest(&self) -> bool
        ensures { result ≡ is_rest self.now }
    {
        match self {
            TagStage::Front | TagStage::Tags | TagStage::Gap => false,
            TagStage::Rest => true,
        }
    }
}

// Whether a byte ends a line.
fn is_end(byte: u8) -> bool
    ensures { result ≡ is_end byte }
{
    byte == b'\r' || byte == b'\n'
}
