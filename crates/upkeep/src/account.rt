// The account that a bot logs in to, and the file of its password.
ghost use Rattle.std.specs.Prelude.{◌≡◌, ◌<◌, ◌≤◌, ◌==◌, IfOk, IfSome, is_some, length, position};
ghost use Rattle.handshake.specs.Secrets.{secret_line, without_cr};
ghost use Rattle.upkeep.specs.Ending.{account_cause};

use crate::ending::RunError;
use bytetext::{Text, TryCopy};
use registration::{Credentials, CredentialsFault};
use serverlink::{IrcConnection, put};
use settings::Settings;
use std::fmt::Display;
use std::fs::File;
use std::io::ErrorKind;
use std::os::unix::fs::FileExt as _;
use std::rt::Files;
use std::{fmt, fs, io, str};

// Room for a password that is too long by a byte, with its CR and LF.
const ROOM: usize = 258;

// How often the file is read: each read gives a byte at least, unless a signal interrupts it.
const READS: u32 = 10_000;

/// Why a bot cannot log in to the account of its configuration.
#[derive(Clone, Copy, Debug, PartialEq, Eq)]
pub enum AccountFault {
    /// The password's file is missing, or this user may not read it.
    Unreadable,
    /// The password's file is a folder, a FIFO, a socket or a device.
    NotRegular,
    /// The system has no file or memory for the password's file, or its disk fails.
    System,
    /// The name and the password are none that a bot can log in with.
    Credentials(CredentialsFault),
}

impl Display for AccountFault {
    fn fmt<W: fmt::Write>(&self, f: &mut fmt::Formatter<W>) -> fmt::Result {
        match *self {
            AccountFault::Unreadable => f.write_str(
                "the file of the line account can't be read: give a file that this user may read",
            ),
            AccountFault::NotRegular => f.write_str(
                "the file of the line account is not a regular file: give one whose first line is the password",
            ),
            AccountFault::System => f.write_str(
                "the file of the line account can't be read: the system has no file or memory for it, or its disk fails",
            ),
            AccountFault::Credentials(fault) => put(f, "the line account and its file: ", &fault),
        }
    }
}

/// Creates the connection to the servers, none of which is connected yet. Each connection logs in to the account of
/// `settings`, if there is one.
///
/// # Errors
/// `Account` if the bot cannot log in; `NoMemory` if an allocation fails.
#[inline(never)]
pub fn uplink_of<R: AllocGlobal + Files<File = File>>(
    rt: &R,
    settings: &Settings,
) -> Result<IrcConnection, RunError>
    requires some { 0 < length settings.now.servers }
    // A bot with an account in its configuration logs in; one without never does.
    ensures account { IfOk result (λ irc. is_some irc.account ≡ is_some settings.now.account) }
{
    let account = account_of(rt, settings)?;
    Ok(IrcConnection::new(rt.alloc(), settings, account)?)
}

/// Reads the password of the account of `settings`, if there is one: the first line of its file.
///
/// # Errors
/// `Account` if the bot cannot log in; `NoMemory` if an allocation fails.
pub fn account_of<R: AllocGlobal + Files<File = File>>(
    rt: &R,
    settings: &Settings,
) -> Result<Option<Credentials>, RunError>
    ensures { IfOk result (λ account. is_some account ≡ is_some settings.now.account) }
{
    let Some(login) = &settings.account else {
        return Ok(None);
    };
    let password = password_in(rt, login.file.as_bytes())?;
    match Credentials::new(login.name.copy(rt.alloc())?, password) {
        Ok(account) => Ok(Some(account)),
        Err(fault) => Err(RunError::Account(AccountFault::Credentials(fault))),
    }
}

// Reads the first line of the file at `path`.
fn password_in<R: AllocGlobal + Files<File = File>>(rt: &R, path: &[u8]) -> Result<Text, RunError> {
    let Ok(path) = str::from_utf8(path) else {
        return Err(RunError::Account(AccountFault::Unreadable));
    };
    let mut bytes = [0; ROOM];
    match read_front(rt, path, &mut bytes) {
        Ok(count) => Ok(Text::from_slice(rt.alloc(), first_line(&bytes[..count]))?),
        Err(fault) => Err(RunError::Account(fault)),
    }
}

// Reads the first bytes of the file at `path`, and returns how many there are.
pub(crate) fn read_front<R: Files<File = File>>(
    rt: &R,
    path: &str,
    bytes: &mut [u8],
) -> Result<usize, AccountFault>
    ensures within { IfOk result (λ count. count ≤ length bytes.new) }
    ensures room { length bytes.new ≡ length bytes.old }
{
    // A FIFO is not opened: that would wait for a writer.
    match fs::metadata(rt, path) {
        Ok(found) if !found.is_file() => return Err(AccountFault::NotRegular),
        Ok(_) => {}
        Err(error) => return Err(fault_of(&error)),
    }
    match File::open(rt, path) {
        Ok(file) => front_of(&file, bytes),
        Err(error) => Err(fault_of(&error)),
    }
}

// Reads the first bytes of a file, until it ends or `bytes` is full, and returns how many there are.
fn front_of(file: &File, bytes: &mut [u8]) -> Result<usize, AccountFault>
    ensures within { IfOk result (λ count. count ≤ length bytes.new) }
    ensures room { length bytes.new ≡ length bytes.old }
{
    let mut count = 0;
    for _ in 0..READS {
        match file.read_at(&mut bytes[count..], count as u64) {
            Ok(0) => return Ok(count),
            Ok(more) => count += more.min(bytes.len() - count),
            Err(error) => match error.kind() {
                ErrorKind::Interrupted => {}
                _ => return Err(fault_of(&error)),
            },
        }
    }
    Err(AccountFault::System)
}

// Why the system does not let the file be read.
fn fault_of(error: &io::Error) -> AccountFault {
    match error.raw_os_error() {
        Some(code) => fault_of_code(code.unsigned_abs()),
        None => AccountFault::Unreadable,
    }
}

// The fault for the system's error of this number. The numbers are Linux's: EIO, ENOMEM, ENFILE and EMFILE.
fn fault_of_code(code: u32) -> AccountFault
    ensures { result ≡ account_cause code }
{
    match code {
        5 | 12 | 23 | 24 => AccountFault::System,
        _ => AccountFault::Unreadable,
    }
}

// The bytes of the first line, without its LF, CR LF or CR.
pub(crate) fn first_line(bytes: &[u8]) -> &[u8]
    ensures { result.now ≡ secret_line bytes.now }
{
    match line_end(bytes) {
        Some(end) => without_cr(&bytes[..end]),
        None => without_cr(bytes),
    }
}

// A line without the CR at its end, if it has one.
fn without_cr(line: &[u8]) -> &[u8]
    ensures { result.now ≡ without_cr line.now }
{
    match line.strip_suffix(b"\r") {
        Some(front) => front,
        None => line,
    }
}

// The place of the first line feed.
fn line_end(bytes: &[u8]) -> Option<usize>
    ensures place { result ≡ position (λ b. b == 10) bytes.now }
    ensures within { IfSome result (λ end. end < length bytes.now) }
{
    bytes.iter().position(|byte| *byte == b'\n')
}
