// The text that one bot sends to another: its length in two bytes, and its bytes.
ghost use Rattle.std.specs.Prelude.{◌≡◌, ◌++◌, OnOk, true};
ghost use Rattle.usercodec.specs.Answers.{Gives, Makes};
ghost use Rattle.sharewire.specs.Texts.{is_bot_text};
ghost use Rattle.sharewire.specs.Frames.{long_text};
ghost use Rattle.sharewire.specs.Bodies.{long_text_at, bot_text_at};

use crate::texts::is_bot_text;
use bytetext::{Failure, NoMemory, Text};
use std::alloc::Global;
use usercodec::{CodecError, CodecFault, Reader, put_u16};

pub(crate) fn put_long_text(out: &mut Vec<u8>, text: &[u8]) -> Result<(), NoMemory>
    requires { is_bot_text text.now ≡ true }
    ensures { OnOk result (out.new.items ≡ out.old.items ++ long_text text.now) }
{
    put_u16(out, text.len() as u16)?;
    out.extend_from_slice(text)?;
    Ok(())
}

#[tactic(auto, unfolding(crate::specs::Bodies::bot_text_at))]
pub(crate) fn bot_text(alloc: Global, reader: &mut Reader<'_>) -> Result<Text, CodecError>
    ensures { Makes (λ text. (text, reader.new)) result (bot_text_at reader.old) }
{
    let text = long_text(reader)?;
    if !is_bot_text(text) {
        return Err(Failure::Refused(CodecFault::NotCanonical));
    }
    Ok(Text::from_slice(alloc, text)?)
}

#[tactic(auto, unfolding(crate::specs::Bodies::long_text_at))]
fn long_text<'a>(reader: &mut Reader<'a>) -> Result<&'a [u8], CodecError>
    ensures { Gives (λ text. (text.now, reader.new)) result (long_text_at reader.old) }
{
    let count = reader.u16()?;
    reader.bytes(count as usize)
}
