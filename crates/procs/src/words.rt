// Whether a text begins with a word, and the names of bots.
ghost use Rattle.std.specs.Prelude.{◌≡◌, ◌==◌, not, length, IfOk};
ghost use Rattle.bytetext.specs.Words.{first_word};
ghost use Rattle.procs.specs.Occasions.{bot_name};

use bytetext::{NoMemory, Text, first_word};
use itoa::Buffer;
use std::alloc::Global;

/// Returns whether `text` begins with a word: it isn't empty and doesn't begin with a space.
pub fn starts_with_word(text: &[u8]) -> bool
    ensures { result ≡ not (length (first_word text.now) == 0) }
{
    !first_word(text).is_empty()
}

// Returns the name of the bot `number`: bot 0 is the hub.
pub(crate) fn bot_name(alloc: Global, number: u16) -> Result<Text, NoMemory>
    ensures { IfOk result (λ name. name ≡ bot_name number) }
{
    if number == 0 {
        return Text::from_slice(alloc, b"hub");
    }
    let mut buffer = Buffer::new();
    let mut name = Vec::from_slice(alloc, b"leaf")?;
    name.extend_from_slice(buffer.format(number).as_bytes())?;
    Ok(Text::new(name))
}
