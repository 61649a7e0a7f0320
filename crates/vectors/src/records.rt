// Sealed records of a connection.
use bytetext::Text;
use caselines::{BAD_WORDS, CaseError, Sink};
use sealing::{Key, Kind, MAX_CONTENT, OpenedPiece, Opener, SealFault, Sealer};
use std::alloc::Global;

/// Answers `seal SECRET frames|beat CONTENT ..` on `out`: the bytes of each record, or records, of one direction.
pub fn seal(alloc: Global, words: &[Text], out: &mut Sink) -> Result<(), CaseError> {
    let [secret, steps @ ..] = words else {
        return Err(BAD_WORDS);
    };
    let mut sealer = Sealer::new(Key::new(secret.as_bytes()));
    for (place, step) in steps.chunks(2).enumerate() {
        let [kind, content] = step else {
            return Err(BAD_WORDS);
        };
        out.between(b" ; ", place);
        put_records(alloc, &mut sealer, kind.as_bytes(), content.as_bytes(), out)?;
    }
    Ok(())
}

fn put_records(
    alloc: Global,
    sealer: &mut Sealer,
    kind: &[u8],
    content: &[u8],
    out: &mut Sink,
) -> Result<(), CaseError> {
    let mut records = Vec::new(alloc);
    let are_sealed = match kind {
        b"frames" => sealer.seal_all(&mut records, content)?,
        b"beat" if content.len() <= MAX_CONTENT => sealer.seal(&mut records, Kind::Beat, content)?,
        _ => return Err(BAD_WORDS),
    };
    if are_sealed {
        out.hex(&records);
    } else {
        out.put(b"spent");
    }
    Ok(())
}

/// Answers `open SECRET PIECE..` on `out`: for each piece of a direction the frames and the beats of the records that end
/// in it, and the fault after them.
pub fn open(alloc: Global, words: &[Text], out: &mut Sink) -> Result<(), CaseError> {
    let [secret, pieces @ ..] = words else {
        return Err(BAD_WORDS);
    };
    let mut opener = Opener::new(alloc, Key::new(secret.as_bytes()));
    for (place, piece) in pieces.iter().enumerate() {
        out.between(b" ; ", place);
        show(&opener.feed(alloc, piece.as_bytes())?, out);
    }
    Ok(())
}

fn show(opened: &OpenedPiece, out: &mut Sink) {
    let mut parts = 0;
    if !opened.frames.is_empty() {
        out.put(b"frames ");
        out.hex(&opened.frames);
        parts = 1;
    }
    if !opened.beats.is_empty() {
        out.between(b", ", parts);
        out.put(b"beats ");
        out.hex(&opened.beats);
        parts = 2;
    }
    match opened.fault {
        Some(fault) => {
            out.between(b", ", parts);
            out.put(name_of(fault));
        }
        None => out.put_if(parts == 0, b"none"),
    }
}

fn name_of(fault: SealFault) -> &'static [u8] {
    match fault {
        SealFault::BadLength => b"bad length",
        SealFault::BadTag => b"bad tag",
        SealFault::Spent => b"spent",
        SealFault::Failed => b"failed",
    }
}
