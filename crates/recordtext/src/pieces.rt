// Bytes cut at each separator.
ghost use Rattle.std.specs.Prelude.{◌≡◌, ◌==◌, ◌∷◌, map, option_copied, position, IfOk};
ghost use Rattle.std.specs.List.{slice_split};
ghost use Rattle.recordtext.specs.Words.{words_of, words_in};

use std::alloc::{AllocError, Global};

/// Returns the pieces of `bytes` between the bytes `separator`, empty pieces too: one more than there are separators.
pub fn pieces_of(alloc: Global, bytes: &[u8], separator: u8) -> Result<Vec<&[u8]>, AllocError>
    ensures { IfOk result (λ pieces. map (λ piece. piece.now) pieces.items ≡ slice_split (λ b. b == separator)
        bytes.now) }
{
    let mut pieces = Vec::new(alloc);
    for piece in bytes.split(|byte| *byte == separator) {
        pieces.push(piece)?;
    }
    Ok(pieces)
}

/// Returns the first word of `line`, and the rest of the line after its space, if it has one. Never allocates.
pub fn first_word(line: &[u8]) -> (&[u8], Option<&[u8]>)
    ensures { words_of line.now ≡ result.0.now ∷ words_in (option_copied result.1) }
{
    match first_space(line) {
        Some(place) => (&line[..place], Some(&line[place + 1..])),
        None => (line, None),
    }
}

// The place of the first space.
fn first_space(line: &[u8]) -> Option<usize>
    ensures { result ≡ position (λ b. b == 32) line.now }
{
    line.iter().position(|byte| *byte == b' ')
}
