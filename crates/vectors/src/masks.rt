// Masks.
use bytetext::{Text, TryCopy};
use caselines::{BAD_WORDS, CaseError, Sink};
use loosemask::looseness_of;
use rfccase::Casemapping;
use std::alloc::Global;
use wildmask::{Mask, MaskError, MaskFault, Signature, WideSignature, bind_fault, host_fault};

/// Answers `mask bind|host MASK TEXT` on `out`: whether a copy of the mask matches the text, or the code of why the
/// mask is refused.
pub fn mask(alloc: Global, words: &[Text], out: &mut Sink) -> Result<(), CaseError> {
    let [kind, mask, text] = words else {
        return Err(BAD_WORDS);
    };
    match made(alloc, kind, mask) {
        Ok(mask) => put_match(mask.copy(alloc)?.matches(text.as_bytes()), out),
        Err(MaskError::Refused(fault)) => out.put(fault.code().as_bytes()),
        Err(MaskError::NoMemory) => return Err(CaseError::NoMemory),
    }
    Ok(())
}

/// Answers `maskby MAPPING bind|host MASK TEXT` on `out`: the same by a server's casemapping.
pub fn mask_by(alloc: Global, words: &[Text], out: &mut Sink) -> Result<(), CaseError> {
    let [mapping, kind, mask, text] = words else {
        return Err(BAD_WORDS);
    };
    let mapping = Casemapping::named(mapping.as_bytes());
    match made(alloc, kind, mask) {
        Ok(mask) => put_match(mask.copy(alloc)?.matches_by(mapping, text.as_bytes()), out),
        Err(MaskError::Refused(fault)) => out.put(fault.code().as_bytes()),
        Err(MaskError::NoMemory) => return Err(CaseError::NoMemory),
    }
    Ok(())
}

fn put_match(is_match: bool, out: &mut Sink) {
    match is_match {
        true => out.put(b"match"),
        false => out.put(b"no match"),
    }
}

/// Answers `literals bind|host MASK` on `out`: how many literals the mask has, or the code of why it is refused.
pub fn literals(alloc: Global, words: &[Text], out: &mut Sink) -> Result<(), CaseError> {
    let [kind, mask] = words else {
        return Err(BAD_WORDS);
    };
    if let Some(fault) = fault_of(kind, mask) {
        out.put(fault.code().as_bytes());
        return Ok(());
    }
    match made(alloc, kind, mask) {
        Ok(mask) => out.number(mask.literals() as u64),
        Err(MaskError::Refused(_)) => out.put(b"refused"),
        Err(MaskError::NoMemory) => return Err(CaseError::NoMemory),
    }
    Ok(())
}

/// Answers `tail bind|host MASK` on `out`: the mask's tail, or the code of why it is refused.
pub fn tail(alloc: Global, words: &[Text], out: &mut Sink) -> Result<(), CaseError> {
    let [kind, mask] = words else {
        return Err(BAD_WORDS);
    };
    match made(alloc, kind, mask) {
        Ok(mask) => out.put(mask.tail().as_bytes()),
        Err(MaskError::Refused(fault)) => out.put(fault.code().as_bytes()),
        Err(MaskError::NoMemory) => return Err(CaseError::NoMemory),
    }
    Ok(())
}

/// Answers `seems bind|host MASK TEXT` on `out`: whether the text seems to have the mask's pairs in 128 places, and in
/// 256, or the code of why the mask is refused.
pub fn seems(alloc: Global, words: &[Text], out: &mut Sink) -> Result<(), CaseError> {
    let [kind, mask, text] = words else {
        return Err(BAD_WORDS);
    };
    match made(alloc, kind, mask) {
        Ok(mask) => put_seems(&mask, text.as_bytes(), out),
        Err(MaskError::Refused(fault)) => out.put(fault.code().as_bytes()),
        Err(MaskError::NoMemory) => return Err(CaseError::NoMemory),
    }
    Ok(())
}

fn put_seems(mask: &Mask, text: &[u8], out: &mut Sink) {
    let few = mask.signature().is_within(Signature::of(text));
    let many = mask.wide_signature().is_within(WideSignature::of(text));
    out.put(if few { b"yes " } else { b"no " });
    out.put(if many { b"yes" } else { b"no" });
}

/// Answers `loose MASK` on `out`: the warning of a loose hostmask, or `not loose`.
pub fn loose(words: &[Text], out: &mut Sink) -> Result<(), CaseError> {
    let [mask] = words else {
        return Err(BAD_WORDS);
    };
    match looseness_of(mask.as_bytes()) {
        Some(looseness) => out.put(looseness.warning().as_bytes()),
        None => out.put(b"not loose"),
    }
    Ok(())
}

// Why a mask is refused, answered before it is made.
fn fault_of(kind: &Text, mask: &Text) -> Option<MaskFault> {
    if kind.is_same(b"bind") {
        bind_fault(mask.as_bytes())
    } else {
        host_fault(mask.as_bytes())
    }
}

// A mask of a bind if the kind says so, and a hostmask otherwise.
fn made(alloc: Global, kind: &Text, mask: &Text) -> Result<Mask, MaskError> {
    if kind.is_same(b"bind") {
        Mask::bind(alloc, mask.as_bytes())
    } else {
        Mask::host(alloc, mask.as_bytes())
    }
}
