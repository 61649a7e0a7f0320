// Queries for the addresses of a name, the replies to them, and the files that say whom to ask.
use crate::configurations::file_of;
use bytetext::Text;
use caselines::{BAD_WORDS, CaseError, Sink, number};
use resolver::{Addresses, Family, NameAnswer, Query, known_addresses, name_servers};
use std::alloc::Global;

/// Answers `query NUMBER NAME FAMILY` on `out`: the bytes of the query.
pub fn query(words: &[Text], out: &mut Sink) -> Result<(), CaseError> {
    let [id, name, family] = words else {
        return Err(BAD_WORDS);
    };
    match query_of(id, name, family)? {
        Some(query) => out.hex(query.as_bytes()),
        None => out.put(b"no name"),
    }
    Ok(())
}

/// Answers `reply NUMBER NAME FAMILY BYTES` on `out`: what these bytes answer to that query.
pub fn reply(alloc: Global, words: &[Text], out: &mut Sink) -> Result<(), CaseError> {
    let [id, name, family, bytes] = words else {
        return Err(BAD_WORDS);
    };
    let Some(query) = query_of(id, name, family)? else {
        return Err(BAD_WORDS);
    };
    match query.answer(bytes.as_bytes()) {
        Some(NameAnswer::Found(found)) => put_addresses(alloc, &found, out),
        Some(NameAnswer::Nothing) => {
            out.put(b"nothing");
            Ok(())
        }
        None => {
            out.put(b"no answer");
            Ok(())
        }
    }
}

fn query_of(id: &Text, name: &Text, family: &Text) -> Result<Option<Query>, CaseError> {
    let family = match family.as_bytes() {
        b"4" => Family::V4,
        b"6" => Family::V6,
        _ => return Err(BAD_WORDS),
    };
    Ok(Query::new(number(id.as_bytes())?, name.as_bytes(), family))
}

/// Answers `hosts NAME LINE..` on `out`: the addresses of NAME in a file of hosts of these lines.
pub fn hosts(alloc: Global, words: &[Text], out: &mut Sink) -> Result<(), CaseError> {
    let [name, lines @ ..] = words else {
        return Err(BAD_WORDS);
    };
    let file = file_of(alloc, lines)?;
    put_addresses(alloc, &known_addresses(&file, name.as_bytes()), out)
}

/// Answers `servers LINE..` on `out`: the name servers in a configuration of the resolver of these lines.
pub fn servers(alloc: Global, lines: &[Text], out: &mut Sink) -> Result<(), CaseError> {
    let file = file_of(alloc, lines)?;
    put_addresses(alloc, &name_servers(&file), out)
}

fn put_addresses(alloc: Global, found: &Addresses, out: &mut Sink) -> Result<(), CaseError> {
    out.put_if(found.as_slice().is_empty(), b"none");
    for (place, address) in found.as_slice().iter().enumerate() {
        out.between(b" ", place);
        let text = format!(in alloc; "{address}")?;
        out.put(text.as_bytes());
    }
    Ok(())
}
