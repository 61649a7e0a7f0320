// Values as bytes.
use bytetext::Text;
use caselines::{BAD_WORDS, CaseError, Sink, number, put_change, put_record};
use std::alloc::Global;
use usercodec::{
    CodecError, Decoded, Reader, Record, read_change, read_change_old, read_record,
    read_record_old, write_change, write_record,
};
use userfile::{Change, shape};

/// Answers `spell CHANGE` on `out`: the bytes that spell a change, or the code of what is wrong with its shape.
pub fn spell(alloc: Global, words: &[Text], out: &mut Sink) -> Result<(), CaseError> {
    let [word] = words else {
        return Err(BAD_WORDS);
    };
    let Some(change) = recordtext::change_of(alloc, word.as_bytes())? else {
        return Err(BAD_WORDS);
    };
    spell_change(alloc, &change, out)
}

fn spell_change(alloc: Global, change: &Change, out: &mut Sink) -> Result<(), CaseError> {
    match shape(change) {
        Some(fault) => out.put(fault.code().as_bytes()),
        None => out.hex(&write_change(alloc, change)?),
    }
    Ok(())
}

/// Answers `change BYTES` on `out`: how many bytes spell a change, and the change, or the code.
pub fn change(alloc: Global, words: &[Text], out: &mut Sink) -> Result<(), CaseError> {
    change_shown(alloc, read_change(alloc, only(words)?), out)
}

/// Answers `oldchange BYTES` on `out`: the same for layout 1.
pub fn old_change(alloc: Global, words: &[Text], out: &mut Sink) -> Result<(), CaseError> {
    change_shown(alloc, read_change_old(alloc, only(words)?), out)
}

/// Answers `record BYTES` on `out`: how many bytes spell a record, and the record, or the code.
pub fn record(alloc: Global, words: &[Text], out: &mut Sink) -> Result<(), CaseError> {
    record_shown(alloc, read_record(alloc, only(words)?), out)
}

/// Answers `oldrecord BYTES` on `out`: the same for layout 1.
pub fn old_record(alloc: Global, words: &[Text], out: &mut Sink) -> Result<(), CaseError> {
    record_shown(alloc, read_record_old(alloc, only(words)?), out)
}

/// Answers `pass COUNT BYTES` on `out`: the record after so many others, which are passed over, or the code.
pub fn pass(alloc: Global, words: &[Text], out: &mut Sink) -> Result<(), CaseError> {
    let [count, bytes] = words else {
        return Err(BAD_WORDS);
    };
    match record_after(alloc, number(count.as_bytes())?, bytes.as_bytes()) {
        Ok(record) => {
            put_record(alloc, &record, out);
            Ok(())
        }
        Err(error) => tell(error, out),
    }
}

fn record_after(alloc: Global, count: usize, bytes: &[u8]) -> Result<Record, CodecError> {
    let mut reader = Reader::new(bytes);
    reader.pass_records(count)?;
    reader.record(alloc)
}

// The bytes of a case that has them alone.
fn only(words: &[Text]) -> Result<&[u8], CaseError> {
    match words {
        [bytes] => Ok(bytes.as_bytes()),
        _ => Err(BAD_WORDS),
    }
}

fn change_shown(
    alloc: Global,
    answer: Result<Decoded<Change>, CodecError>,
    out: &mut Sink,
) -> Result<(), CaseError> {
    match answer {
        Ok(read) => {
            out.number(read.used as u64);
            out.put(b" ");
            put_change(alloc, &read.value, out);
            Ok(())
        }
        Err(error) => tell(error, out),
    }
}

fn record_shown(
    alloc: Global,
    answer: Result<Decoded<Record>, CodecError>,
    out: &mut Sink,
) -> Result<(), CaseError> {
    match answer {
        Ok(read) => {
            out.number(read.used as u64);
            out.put(b" ");
            put_record(alloc, &read.value, out);
            Ok(())
        }
        Err(error) => tell(error, out),
    }
}

/// Answers `respell change|record BYTES` on `out`: the bytes that spell what these spell, or the code.
pub fn respell(alloc: Global, words: &[Text], out: &mut Sink) -> Result<(), CaseError> {
    let [sort, bytes] = words else {
        return Err(BAD_WORDS);
    };
    if sort.is_same(b"change") {
        respell_change(alloc, bytes.as_bytes(), out)
    } else if sort.is_same(b"record") {
        respell_record(alloc, bytes.as_bytes(), out)
    } else {
        Err(BAD_WORDS)
    }
}

fn respell_change(alloc: Global, bytes: &[u8], out: &mut Sink) -> Result<(), CaseError> {
    match read_change(alloc, bytes) {
        Ok(read) => {
            out.hex(&write_change(alloc, &read.value)?);
            Ok(())
        }
        Err(error) => tell(error, out),
    }
}

fn respell_record(alloc: Global, bytes: &[u8], out: &mut Sink) -> Result<(), CaseError> {
    match read_record(alloc, bytes) {
        Ok(read) => {
            out.hex(&write_record(alloc, &read.value)?);
            Ok(())
        }
        Err(error) => tell(error, out),
    }
}

// Writes why bytes spell nothing.
fn tell(error: CodecError, out: &mut Sink) -> Result<(), CaseError> {
    match error {
        CodecError::Refused(fault) => {
            out.put(fault.code().as_bytes());
            Ok(())
        }
        CodecError::NoMemory => Err(CaseError::NoMemory),
    }
}
