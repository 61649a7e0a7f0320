// The files of secrets: of the net's or of a leaf's key, and of the password of an account.
ghost use Rattle.std.specs.Prelude.{◌≡◌};
ghost use Rattle.doctor.specs.Secrets.{verdict_of_secret};

use crate::modes::{FileMode, Seen, mode_to_give};
use crate::report::Report;
use crate::subject::Subject;
use crate::verdict::{Bad, Fine, Note, Verdict};
use handshake::{Secret, SecretFault, key_of};
use std::fs::File;
use std::rt::Files;
use std::{fs, str};

// Looks at the file `name`, for the bot of this number in its net, and tells what it finds.
pub(crate) fn look_at_secret<R: Print + Files<File = File>>(
    rt: &R,
    report: &mut Report,
    name: &[u8],
    number: u16,
) {
    let secret = Subject::Named("secret ", name);
    let Ok(path) = str::from_utf8(name) else {
        return report.tell(
            rt,
            secret,
            Verdict::Bad(Bad::Secret(SecretFault::Unreadable)),
        );
    };
    report.tell(rt, secret, verdict_of_secret(number, key_of(rt, path)));
    tell_mode(rt, report, secret, open_mode(rt, path));
}

// Looks at the file `name` of the password of the bot's account, and tells what it finds. Only `run` reads the password.
pub(crate) fn look_at_password<R: Print + Files<File = File>>(
    rt: &R,
    report: &mut Report,
    name: &[u8],
) {
    let password = Subject::Named("password ", name);
    match str::from_utf8(name) {
        Ok(path) if is_readable(rt, path) => {
            report.tell(rt, password, Verdict::Fine(Fine::Password));
            tell_mode(rt, report, password, open_mode(rt, path));
        }
        Ok(_) | Err(_) => report.tell(rt, password, Verdict::Bad(Bad::Password)),
    }
}

// Tells which mode a file is to get, if others may read it.
fn tell_mode<R: Print>(rt: &R, report: &mut Report, subject: Subject<'_>, mode: Option<FileMode>) {
    if let Some(mode) = mode {
        report.tell(rt, subject, Verdict::Bad(Bad::OpenSecret(mode)));
    }
}

// Whether this user can read the file at `path`. A FIFO is not opened: that would wait for a writer.
fn is_readable<R: Files<File = File>>(rt: &R, path: &str) -> bool {
    match fs::metadata(rt, path) {
        Ok(found) => found.is_file() && File::open(rt, path).is_ok(),
        Err(_) => false,
    }
}

// Whether the bot of this number in its net can use what was read.
fn verdict_of_secret(number: u16, found: Result<Secret, SecretFault>) -> Verdict
    ensures { result ≡ verdict_of_secret number found }
{
    match found {
        Err(fault) => Verdict::Bad(Bad::Secret(fault)),
        Ok(Secret::Net(_)) if number == 0 => Verdict::Fine(Fine::Secret),
        Ok(Secret::Net(_)) => Verdict::Note(Note::NetsSecret(number)),
        Ok(Secret::Leaf { leaf: _, key: _ }) if number == 0 => {
            Verdict::Bad(Bad::Secret(SecretFault::LeafKey))
        }
        Ok(Secret::Leaf { leaf, key: _ }) if leaf == number => Verdict::Fine(Fine::Secret),
        Ok(Secret::Leaf { leaf: _, key: _ }) => Verdict::Bad(Bad::Secret(SecretFault::OtherLeaf)),
    }
}

// The mode that the file at `path` is to get, if others may read it.
pub(crate) fn open_mode<R: Files>(rt: &R, path: &str) -> Option<FileMode> {
    match fs::metadata(rt, path) {
        Ok(found) => mode_to_give(Seen::of(&found)),
        Err(_) => None,
    }
}
