// Casemapping.
use bytetext::Text;
use caselines::{BAD_WORDS, CaseError, Sink};
use rfccase::Casemapping;
use std::alloc::Global;

/// Answers `fold TEXT` on `out`: the text's lower case.
pub fn fold(alloc: Global, words: &[Text], out: &mut Sink) -> Result<(), CaseError> {
    let [text] = words else {
        return Err(BAD_WORDS);
    };
    out.put(&rfccase::fold_text(alloc, text.as_bytes())?);
    Ok(())
}

/// Answers `same TEXT TEXT` on `out`: whether two texts are the same.
pub fn same(words: &[Text], out: &mut Sink) -> Result<(), CaseError> {
    let [a, b] = words else {
        return Err(BAD_WORDS);
    };
    put_same(rfccase::same(a.as_bytes(), b.as_bytes()), out);
    Ok(())
}

/// Answers `foldby MAPPING TEXT` on `out`: the text's lower case by a server's casemapping.
pub fn fold_by(alloc: Global, words: &[Text], out: &mut Sink) -> Result<(), CaseError> {
    let [mapping, text] = words else {
        return Err(BAD_WORDS);
    };
    let mapping = Casemapping::named(mapping.as_bytes());
    out.put(&rfccase::fold_text_by(alloc, mapping, text.as_bytes())?);
    Ok(())
}

/// Answers `sameby MAPPING TEXT TEXT` on `out`: whether two texts are the same by a server's casemapping.
pub fn same_by(words: &[Text], out: &mut Sink) -> Result<(), CaseError> {
    let [mapping, a, b] = words else {
        return Err(BAD_WORDS);
    };
    let mapping = Casemapping::named(mapping.as_bytes());
    put_same(rfccase::same_by(mapping, a.as_bytes(), b.as_bytes()), out);
    Ok(())
}

fn put_same(is_same: bool, out: &mut Sink) {
    match is_same {
        true => out.put(b"same"),
        false => out.put(b"not same"),
    }
}
