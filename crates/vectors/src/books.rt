// A hub's book, the file of a secret, and codes.
use crate::handshakes::{bytes_of, drawn};
use bytetext::{Failure, Text};
use caselines::{BAD_WORDS, CaseError, Sink, number};
use handshake::{
    Book, BookFault, Place, Secret, SecretFault, leaf_file_line, leaf_key as leaf_key_of,
    secret_in, tunnel_key_line,
};
use sealing::Key;
use std::alloc::Global;

/// Answers `hmac SECRET TEXT` on `out`: the code of the text under the secret.
pub fn hmac(words: &[Text], out: &mut Sink) -> Result<(), CaseError> {
    let [secret, text] = words else {
        return Err(BAD_WORDS);
    };
    let key = Key::new(secret.as_bytes());
    out.put(&key.code(text.as_bytes()));
    Ok(())
}

/// Answers `leafkey SECRET NUMBER` on `out`: the line of the leaf's file.
pub fn leaf_key(words: &[Text], out: &mut Sink) -> Result<(), CaseError> {
    let [secret, leaf] = words else {
        return Err(BAD_WORDS);
    };
    let line = leaf_file_line(&Key::new(secret.as_bytes()), number(leaf.as_bytes())?);
    out.put(line.as_bytes());
    Ok(())
}

/// Answers `tunnelkey SECRET NUMBER` on `out`: the leaf's line of the file of the tunnels' keys.
pub fn tunnel_key(words: &[Text], out: &mut Sink) -> Result<(), CaseError> {
    let [secret, leaf] = words else {
        return Err(BAD_WORDS);
    };
    let leaf = number(leaf.as_bytes())?;
    let line = tunnel_key_line(&leaf_key_of(&Key::new(secret.as_bytes()), leaf), leaf);
    out.put(line.as_bytes());
    Ok(())
}

/// Answers `secret BYTES` on `out`: whose key a file of these bytes holds, and the code of the empty text under it.
pub fn secret(alloc: Global, words: &[Text], out: &mut Sink) -> Result<(), CaseError> {
    let [word] = words else {
        return Err(BAD_WORDS);
    };
    let bytes = bytes_of(alloc, word)?;
    match secret_in(bytes.as_slice()) {
        Ok(secret) => show_secret(&secret, out),
        Err(fault) => show_fault(fault, out),
    }
    Ok(())
}

fn show_secret(secret: &Secret, out: &mut Sink) {
    match secret {
        Secret::Net(key) => {
            out.put(b"net ");
            show_key(key, out);
        }
        Secret::Leaf { leaf, key } => {
            out.put(b"leaf ");
            out.number(u64::from(*leaf));
            out.put(b" ");
            show_key(key, out);
        }
    }
}

// The code of the empty text under a key.
fn show_key(key: &Key, out: &mut Sink) {
    out.put(&key.code(b""));
}

// Why a line is no secret. The other faults are those of files.
fn show_fault(fault: SecretFault, out: &mut Sink) {
    out.put(match fault {
        SecretFault::Length => b"bad length".as_slice(),
        SecretFault::BadLeafKey => b"bad leaf key".as_slice(),
        SecretFault::Unreadable
        | SecretFault::NotRegular
        | SecretFault::ProcessFiles
        | SecretFault::MachineFiles
        | SecretFault::NoMemory
        | SecretFault::DiskFails
        | SecretFault::LeafKey
        | SecretFault::OtherLeaf => b"not read".as_slice(),
    });
}

/// Answers `book LEAVES LINES NUMBER MADE..` on `out`: what a book of these lines says of each leaf and folder.
pub fn book(alloc: Global, words: &[Text], out: &mut Sink) -> Result<(), CaseError> {
    let [leaves, lines, asked @ ..] = words else {
        return Err(BAD_WORDS);
    };
    let bytes = bytes_of(alloc, lines)?;
    let book = match Book::read(alloc, bytes.as_slice(), number(leaves.as_bytes())?) {
        Ok(book) => book,
        Err(Failure::Refused(BookFault { line })) => {
            out.put(b"bad line ");
            out.number(line);
            return Ok(());
        }
        Err(Failure::NoMemory) => return Err(Failure::NoMemory),
    };
    out.put(b"read");
    for pair in asked.chunks(2) {
        let [leaf, made] = pair else {
            return Err(BAD_WORDS);
        };
        out.put(b" ");
        show_place(book.place(number(leaf.as_bytes())?, &drawn(made)?), out);
    }
    Ok(())
}

fn show_place(place: Place, out: &mut Sink) {
    out.put(match place {
        Place::Free => b"free".as_slice(),
        Place::Same => b"same".as_slice(),
        Place::Taken => b"taken".as_slice(),
        Place::Barred => b"barred".as_slice(),
    });
}
