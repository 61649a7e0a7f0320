// The messages of a login as lines.
ghost use Rattle.std.specs.Prelude.{◌≡◌, ◌∷◌, [], IfOk};
ghost use Rattle.registration.specs.Payloads.{with_piece, or_plus, payload_lines, piece_line};

use crate::joining::joined;
use crate::limits::{MAX_CHALLENGE, PIECE};
use bytetext::{NoMemory, Text, Texts};
use std::alloc::Global;

// What is known of a message of the server's after one more piece.
#[derive(Drop)]
pub(crate) enum Collected {
    // It goes on: what came of it.
    More(Text),
    // The whole message.
    Whole(Text),
    // It is too long.
    Bad,
}

// Adds a piece to what is held of a message.
pub(crate) fn with_piece(alloc: Global, held: &[u8], piece: &[u8]) -> Result<Collected, NoMemory>
    ensures { IfOk result (λ found. found ≡ with_piece held.now piece.now) }
{
    if piece == b"+".as_slice() {
        return Ok(Collected::Whole(Text::from_slice(alloc, held)?));
    }
    if piece.len() > PIECE
        || held.len() > MAX_CHALLENGE
        || held.len() + piece.len() > MAX_CHALLENGE
    {
        return Ok(Collected::Bad);
    }
    let text = Text::new(joined(alloc, &[held, piece])?);
    if piece.len() < PIECE {
        Ok(Collected::Whole(text))
    } else {
        Ok(Collected::More(text))
    }
}

// The lines of a message in Base64.
pub(crate) fn payload_lines(alloc: Global, text: &[u8]) -> Result<Texts, NoMemory>
    ensures { IfOk result (λ lines. lines ≡ payload_lines text.now) }
{
    let mut lines = Texts::empty(alloc);
    let mut rest = text;
    while rest.len() >= PIECE {
        let (piece, next) = rest.split_at(PIECE);
        lines.push(piece_line(alloc, piece)?)?;
        rest = next;
    }
    lines.push(piece_line(alloc, or_plus(rest))?)?;
    Ok(lines)
}

// The line of a piece.
fn piece_line(alloc: Global, piece: &[u8]) -> Result<Text, NoMemory>
    ensures { IfOk result (λ line. line ≡ piece_line piece.now) }
{
    let line = joined(alloc, &[b"AUTHENTICATE ", piece])?;
    Ok(Text::new(line))
}

// The last piece, which is written "+" if it is empty.
fn or_plus(piece: &[u8]) -> &[u8]
    ensures { result.now ≡ or_plus piece.now }
{
    if piece.is_empty() { b"+" } else { piece }
}

// One line.
pub(crate) fn one_line(alloc: Global, line: &[u8]) -> Result<Texts, NoMemory>
    ensures { IfOk result (λ lines. lines ≡ line.now ∷ []) }
{
    let mut lines = Texts::empty(alloc);
    lines.push(Text::from_slice(alloc, line)?)?;
    Ok(lines)
}
