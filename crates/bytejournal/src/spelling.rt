// What is written after a gate.
ghost use Rattle.std.specs.Prelude.{◌≡◌, ◌<◌, ◌^◌, ◌++◌, ◌∷◌, [], length, IfOk};
ghost use Rattle.std.specs.Int.{w32, to_be_bytes};
ghost use Rattle.bytejournal.specs.Meaning.{letters};

use crate::reading::LETTERS;
use bytetext::NoMemory;
use std::alloc::Global;

/// Returns an entry's length and bytes, and a closed gate.
pub(crate) fn entry_text(alloc: Global, entry: &[u8]) -> Result<Vec<u8>, NoMemory>
    requires { length entry.now < 2 ^ 32 }
    ensures { IfOk result (λ text. text.items ≡ (to_be_bytes w32 (length entry.now) ++ entry.now) ++ (0 ∷ [])) }
{
    let mut text = Vec::with_capacity(alloc, 5 + entry.len())?;
    text.extend_from_slice(&(entry.len() as u32).to_be_bytes())?;
    text.extend_from_slice(entry)?;
    text.push(0)?;
    Ok(text)
}

/// Returns the letters, a layout, a generation, a base's length and bytes, and a closed gate.
pub(crate) fn base_text(
    alloc: Global,
    layout: u8,
    generation: u32,
    base: &[u8],
) -> Result<Vec<u8>, NoMemory>
    requires { length base.now < 2 ^ 32 }
    ensures { IfOk result (λ text. text.items ≡ (letters ++ (layout ∷ (to_be_bytes w32 generation ++ (to_be_bytes w32 (length base.now) ++ base.now)))) ++ (0 ∷ [])) }
{
    let mut text = Vec::with_capacity(alloc, 14 + base.len())?;
    text.extend_from_slice(&LETTERS)?;
    text.push(layout)?;
    text.extend_from_slice(&generation.to_be_bytes())?;
    text.extend_from_slice(&(base.len() as u32).to_be_bytes())?;
    text.extend_from_slice(base)?;
    text.push(0)?;
    Ok(text)
}
