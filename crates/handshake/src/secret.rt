// The file of a secret: the net's, or a leaf's key alone.
ghost use Rattle.std.specs.Prelude.{◌≡◌, ◌≢◌, ◌<◌, ◌≤◌, ◌==◌, IfOk, IfErr, IfSome, length, position};
ghost use Rattle.hex.specs.Hex.{encode_lower};
ghost use Rattle.handshake.specs.Keys.{leaf_key};
ghost use Rattle.handshake.specs.Secrets.{leaf_file_line, leaf_secret, leaf_secret_in, line_of_digits, net_secret_in, raw_key_in};
ghost use Rattle.handshake.specs.Secrets.{secret_cause, secret_in, secret_in_line, secret_line, tunnel_key_line, without_cr};
ghost use Rattle.handshake.specs.declared.secret.SecretFault.TheVariants.{Length as too_short};

use crate::digits::are_digits;
use crate::keys::leaf_key_text;
use crate::line::HandshakeLine;
use crate::words::{cut_word, leaf_in};
use hex::{decode_to_slice, encode_to_slice};
use itoa::Buffer;
use sealing::Key;
use std::fs::File;
use std::io::ErrorKind;
use std::os::unix::fs::FileExt as _;
use std::rt::Files;
use std::{fs, io};
use thiserror::Error;

/// The most bytes of a secret.
const MAX_SECRET: usize = 200;

/// The fewest bytes of a secret.
const MIN_SECRET: usize = 16;

// Room for the longest line with its CR and LF.
const ROOM: usize = MAX_SECRET + 2;

// How often the file is read: each read gives a byte at least, unless a signal interrupts it.
const READS: u32 = 10_000;

/// Why a file holds no secret. The text follows the file's name.
#[derive(Clone, Copy, Debug, PartialEq, Eq, Error)]
pub enum SecretFault {
    /// The file is missing, or this user may not read it.
    #[error("can't be read: give a file that this user may read")]
    Unreadable,
    /// The name is that of a folder, a FIFO, a socket or a device.
    #[error("is not a regular file: give one whose first line is the secret")]
    NotRegular,
    /// The process has as many files open as it may have.
    #[error("can't be read: this process has too many open files, so raise its limit, as ulimit -n does")]
    ProcessFiles,
    /// The machine has as many files open as it can have.
    #[error("can't be read: this machine has too many open files, so end other programs or raise fs.file-max")]
    MachineFiles,
    /// The system has no memory for the call.
    #[error("can't be read: this machine is out of memory, so free some and try again")]
    NoMemory,
    /// The device fails.
    #[error("lies on a disk that fails: mend it, then run again")]
    DiskFails,
    /// The file's first line has too few bytes, or too many.
    #[error("has no secret: its first line is to have 16 to 200 bytes, the same at all bots of the net")]
    Length,
    /// The file's first line begins with `leaf-key `, but is not the line of a leaf's key.
    #[error("holds no leaf's key: its first line is to be the one that `eggnet key SECRETFILE N` prints")]
    BadLeafKey,
    /// The bot is the hub, and the file holds a leaf's key. [`key_of`] does not return it; its caller does.
    #[error("holds a leaf's key: the hub needs the net's secret")]
    LeafKey,
    /// The bot is a leaf, and the file holds another leaf's key. [`key_of`] does not return it; its caller does.
    #[error("holds the key of another leaf: print this leaf's with `eggnet key SECRETFILE N`")]
    OtherLeaf,
}

/// What a bot knows of the net's secret.
#[derive(Clone, Copy)]
pub enum Secret {
    /// The net's secret, as a key. [`leaf_key`](crate::leaf_key) makes a leaf's key of it.
    Net(Key),
    /// A leaf's key alone.
    Leaf {
        /// The leaf's number, from 1.
        leaf: u16,
        /// The leaf's key.
        key: Key,
    },
}

/// Reads the secret in the first line of the file at `path`. The line has 16 to 200 bytes without its end: LF or CR LF,
/// or the end of the file, where a CR before it does not count. A line that begins with `leaf-key ` is that of a leaf's
/// key, `leaf-key N KEY` with 64 hexadecimal digits; [`leaf_file_line`] makes it. Every other line is the net's secret.
///
/// # Errors
/// In this order, as [`SecretFault`] describes them: `NotRegular`, one of the system, `BadLeafKey` and `Length`.
pub fn key_of<R: Files<File = File>>(rt: &R, path: &str) -> Result<Secret, SecretFault> {
    // A FIFO is not opened: that would wait for a writer.
    match fs::metadata(rt, path) {
        Ok(found) if !found.is_file() => return Err(SecretFault::NotRegular),
        Ok(_) => {}
        Err(error) => return Err(fault_of(&error)),
    }
    let file = match File::open(rt, path) {
        Ok(file) => file,
        Err(error) => return Err(fault_of(&error)),
    };
    let mut bytes = [0; ROOM];
    let count = front_of(&file, &mut bytes)?;
    secret_in(&bytes[..count])
}

/// Returns the line of the file of the leaf numbered `leaf`, with its line feed: `leaf-key N KEY`. `secret` is the
/// net's. Who has the file can speak as that leaf alone.
pub fn leaf_file_line(secret: &Key, leaf: u16) -> HandshakeLine
    ensures line { result ≡ leaf_file_line secret.now leaf }
    // Whoever reads it has the leaf's key.
    ensures reads { 0 < leaf → secret_in result ≡ Ok (Secret.Leaf leaf (leaf_key secret.now leaf)) }
{
    let key = secret.mac(leaf_key_text(leaf).as_bytes());
    line_of_digits(leaf, &digits_of(&key))
}

// The line of a leaf's key in these digits.
fn line_of_digits(leaf: u16, digits: &[u8; 64]) -> HandshakeLine
    ensures { result ≡ line_of_digits leaf digits.now }
{
    let mut buffer = Buffer::new();
    let mut line = HandshakeLine::empty();
    line.put(b"leaf-key ");
    line.put(buffer.format(leaf).as_bytes());
    line.put(b" ");
    line.put(digits);
    line.put(b"\n");
    line
}

/// Returns the line of the leaf numbered `leaf` in the file of the tunnels' keys, with its line feed: `leafN:KEY`, whose
/// KEY is the HMAC of `tunnel` by the leaf's `key` in 64 hexadecimal digits. Both ends of the leaf's tunnel have the line.
/// Who has it learns nothing of the leaf's key.
pub fn tunnel_key_line(key: &Key, leaf: u16) -> HandshakeLine
    ensures { result ≡ tunnel_key_line key.now leaf }
{
    let mut buffer = Buffer::new();
    let mut line = HandshakeLine::empty();
    line.put(b"leaf");
    line.put(buffer.format(leaf).as_bytes());
    line.put(b":");
    line.put(&digits_of(&key.mac(b"tunnel")));
    line.put(b"\n");
    line
}

// A key's bytes as hexadecimal digits.
#[tactic(auto, using(crate::proofs::SecretLemmas::key_reads))]
fn digits_of(key: &[u8; 32]) -> [u8; 64]
    ensures digits { result ≡ encode_lower key.now }
    ensures reads { raw_key_in result ≡ Some key.now }
{
    let mut digits = [0; 64];
    encode_to_slice(key, &mut digits).unwrap();
    digits
}

/// Returns the secret in the first line of `bytes`, as [`key_of`] does for those of a file.
///
/// # Errors
/// `BadLeafKey` and `Length`, as [`SecretFault`] describes them.
pub fn secret_in(bytes: &[u8]) -> Result<Secret, SecretFault>
    ensures { result ≡ secret_in bytes.now }
{
    secret_in_line(first_line(bytes))
}

// The secret in a line without its end.
fn secret_in_line(line: &[u8]) -> Result<Secret, SecretFault>
    ensures { result ≡ secret_in_line line.now }
{
    match line.strip_prefix(b"leaf-key ") {
        Some(words) => leaf_secret_in(words),
        None => net_secret_in(line),
    }
}

// A leaf's key, by the words of its line after the first.
fn leaf_secret_in(words: &[u8]) -> Result<Secret, SecretFault>
    ensures { result ≡ leaf_secret_in words.now }
{
    let leaf = cut_word(words);
    leaf_secret(leaf_in(leaf.word), raw_key_in(leaf.rest))
}

// A leaf's key, if there are its number and its bytes.
fn leaf_secret(leaf: Option<u16>, key: Option<[u8; 32]>) -> Result<Secret, SecretFault>
    ensures { result ≡ leaf_secret leaf key }
{
    let (Some(leaf), Some(key)) = (leaf, key) else {
        return Err(SecretFault::BadLeafKey);
    };
    Ok(Secret::Leaf {
        leaf,
        key: Key::new(&key),
    })
}

// The bytes of a key in 64 digits.
fn raw_key_in(word: &[u8]) -> Option<[u8; 32]>
    ensures { result ≡ raw_key_in word.now }
{
    if !are_digits(64, word) {
        return None;
    }
    let mut key = [0; 32];
    match decode_to_slice(word, &mut key) {
        Ok(()) => Some(key),
        Err(_) => None,
    }
}

// The net's secret, if its length is within the limits.
fn net_secret_in(secret: &[u8]) -> Result<Secret, SecretFault>
    ensures { result ≡ net_secret_in secret.now }
{
    if secret.len() < MIN_SECRET || secret.len() > MAX_SECRET {
        return Err(SecretFault::Length);
    }
    Ok(Secret::Net(Key::new(secret)))
}

// Reads the first bytes of a file, until it ends or `bytes` is full, and returns how many there are.
fn front_of(file: &File, bytes: &mut [u8]) -> Result<usize, SecretFault>
    ensures within { IfOk result (λ count. count ≤ length bytes.new) }
    ensures length { IfErr result (λ fault. fault ≢ too_short) }
{
    let mut count = 0;
    for _ in 0..READS {
        match file.read_at(&mut bytes[count..], count as u64) {
            Ok(0) => return Ok(count),
            Ok(more) => count += more.min(bytes.len() - count),
            Err(error) => match error.kind() {
                ErrorKind::Interrupted => {}
                _ => return Err(fault_of(&error)),
            },
        }
    }
    Err(SecretFault::DiskFails)
}

// Why the system does not let the file be read.
fn fault_of(error: &io::Error) -> SecretFault
    ensures { result ≢ too_short }
{
    match error.raw_os_error() {
        Some(code) => fault_of_code(code.unsigned_abs()),
        None => SecretFault::Unreadable,
    }
}

// The fault for the system's error of this number. The numbers are Linux's: EIO, ENOMEM, ENFILE and EMFILE.
fn fault_of_code(code: u32) -> SecretFault
    ensures cause { result ≡ secret_cause code }
    ensures length { result ≢ too_short }
{
    match code {
        5 => SecretFault::DiskFails,
        12 => SecretFault::NoMemory,
        23 => SecretFault::MachineFiles,
        24 => SecretFault::ProcessFiles,
        _ => SecretFault::Unreadable,
    }
}

// The bytes of the first line, without its LF, CR LF or CR.
fn first_line(bytes: &[u8]) -> &[u8]
    ensures { result.now ≡ secret_line bytes.now }
{
    match line_end(bytes) {
        Some(end) => without_cr(&bytes[..end]),
        None => without_cr(bytes),
    }
}

// A line without the CR at its end, if it has one.
fn without_cr(line: &[u8]) -> &[u8]
    ensures { result.now ≡ without_cr line.now }
{
    match line.strip_suffix(b"\r") {
        Some(front) => front,
        None => line,
    }
}

// The place of the first line feed.
fn line_end(bytes: &[u8]) -> Option<usize>
    ensures place { result ≡ position (λ b. b == 10) bytes.now }
    ensures within { IfSome result (λ end. end < length bytes.now) }
{
    bytes.iter().position(|byte| *byte == b'\n')
}
