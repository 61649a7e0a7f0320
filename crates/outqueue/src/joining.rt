// Makes one line of several.
ghost use Rattle.std.specs.Prelude.{◌≡◌, ◌++◌, ◌∷◌, map, IfOk, OnOk};
ghost use Rattle.std.specs.List.{concat};
ghost use Rattle.outqueue.specs.Joining.{joined, mode_of, spaced_argument};

use crate::mode_line::{argument_of, channel_of, mode_of};
use bytetext::{NoMemory, Text, bytes_of};
use std::alloc::Global;

// Makes one MODE of `first` and the lines that go along with it. If there are none, it is `first`.
pub(crate) fn joined(alloc: Global, first: Text, along: &[Text]) -> Result<Text, NoMemory>
    ensures { IfOk result (λ line. line ≡ joined (first ∷ along.now)) }
{
    if along.is_empty() {
        return Ok(first);
    }
    let mut line = bytes_of(alloc, b"MODE ")?;
    line.extend_from_slice(channel_of(first.as_bytes()))?;
    line.push(b' ')?;
    line.extend_from_slice(mode_of(first.as_bytes()))?;
    put_modes(&mut line, along)?;
    put_argument(&mut line, first.as_bytes())?;
    put_arguments(&mut line, along)?;
    Ok(Text::new(line))
}

// Appends the mode of each line.
fn put_modes(line: &mut Vec<u8>, lines: &[Text]) -> Result<(), NoMemory>
    ensures { OnOk result (line.new.items ≡ line.old.items ++ concat (map mode_of lines.now)) }
{
    for one in lines {
        line.extend_from_slice(mode_of(one.as_bytes()))?;
    }
    Ok(())
}

// Appends the argument of each line, after a space.
fn put_arguments(line: &mut Vec<u8>, lines: &[Text]) -> Result<(), NoMemory>
    ensures { OnOk result (line.new.items ≡ line.old.items ++ concat (map spaced_argument lines.now)) }
{
    for one in lines {
        put_argument(line, one.as_bytes())?;
    }
    Ok(())
}

fn put_argument(line: &mut Vec<u8>, one: &[u8]) -> Result<(), NoMemory>
    ensures { OnOk result (line.new.items ≡ line.old.items ++ spaced_argument one.now) }
{
    line.push(b' ')?;
    line.extend_from_slice(argument_of(one))?;
    Ok(())
}
