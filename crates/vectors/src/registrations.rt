// Registrations with a server.
use bytetext::{Failure, Text, Texts, TryCopy};
use caselines::{BAD_WORDS, CaseError, Sink, number};
use ircline::read_line;
use registration::{
    Capabilities, Credentials, CredentialsFault, Mechanisms, Pbkdf2, Registration,
    RegistrationFault, ScramFault, ScramHash, ScramNonce, ScramNonces, Wish,
};
use std::alloc::Global;

/// Answers `pbkdf2 sha256|sha512 PASSWORD SALT COUNT ROUNDS` on `out`: the salted password in hexadecimal digits,
/// derived with ROUNDS iterations in the first piece.
pub fn pbkdf2(alloc: Global, words: &[Text], out: &mut Sink) -> Result<(), CaseError> {
    let [hash, password, salt, count, rounds] = words else {
        return Err(BAD_WORDS);
    };
    let hash = match hash.as_bytes() {
        b"sha256" => ScramHash::Sha256,
        b"sha512" => ScramHash::Sha512,
        _ => return Err(BAD_WORDS),
    };
    let count: u32 = number(count.as_bytes())?;
    if count == 0 {
        return Err(BAD_WORDS);
    }
    let mut derivation = Pbkdf2::new(alloc, hash, password.as_bytes(), salt.as_bytes(), count)?;
    derivation.work(number(rounds.as_bytes())?);
    derivation.work(u32::MAX);
    out.hex(derivation.sum().as_bytes());
    Ok(())
}

/// Answers `register NAME PASSWORD ALLOWED private|open WANTED N512 N256 LINE..` on `out`: what the client says to each
/// LINE of the server, with ` ; ` between them.
pub fn register(alloc: Global, words: &[Text], out: &mut Sink) -> Result<(), CaseError> {
    let [name, password, allowed, way, wanted, n512, n256, lines @ ..] = words else {
        return Err(BAD_WORDS);
    };
    let account = match name.as_bytes() {
        b"-" => None,
        _ => match Credentials::new(name.copy(alloc)?, password.copy(alloc)?) {
            Ok(account) => Some(account),
            Err(fault) => {
                show_account_fault(fault, out);
                return Ok(());
            }
        },
    };
    let wish = Wish {
        account,
        allowed: allowed_by(allowed.as_bytes()),
        is_private: way.as_bytes() == b"private".as_slice(),
        wanted: wanted_by(wanted.as_bytes()),
    };
    let nonces = ScramNonces {
        sha_512: nonce_of(n512)?,
        sha_256: nonce_of(n256)?,
    };
    let mut registration = Registration::new(alloc, wish, nonces);
    for (place, line) in lines.iter().enumerate() {
        out.between(b" ; ", place);
        hear(alloc, &mut registration, line, out)?;
    }
    Ok(())
}

// What the client says to a line, or once it has derived the salted password.
fn hear(
    alloc: Global,
    registration: &mut Registration,
    line: &Text,
    out: &mut Sink,
) -> Result<(), CaseError> {
    let line = read_line(alloc, line.as_bytes())?;
    let said = registration.hear(alloc, &line);
    if registration.is_deriving() {
        registration.derive(u32::MAX);
        return show(registration.finish(alloc), registration.is_over(), out);
    }
    show(said, registration.is_over(), out)
}

fn show(
    said: Result<Texts, Failure<RegistrationFault>>,
    is_over: bool,
    out: &mut Sink,
) -> Result<(), CaseError> {
    match said {
        Ok(lines) => show_lines(lines.as_slice(), is_over, out),
        Err(Failure::Refused(fault)) => show_fault(fault, out),
        Err(Failure::NoMemory) => return Err(Failure::NoMemory),
    }
    Ok(())
}

fn show_lines(lines: &[Text], is_over: bool, out: &mut Sink) {
    out.put(match (lines.is_empty(), is_over) {
        (true, true) => b"over".as_slice(),
        (true, false) => b"none",
        (false, _) => b"says",
    });
    for line in lines {
        out.quoted(line.as_bytes());
    }
    out.put_if(is_over && !lines.is_empty(), b" over");
}

fn show_fault(fault: RegistrationFault, out: &mut Sink) {
    out.put(match fault {
        RegistrationFault::NoCapabilities => b"NoCapabilities",
        RegistrationFault::NoSasl => b"NoSasl",
        RegistrationFault::NoMechanism => b"NoMechanism",
        RegistrationFault::Rejected => b"Rejected",
        RegistrationFault::Welcomed => b"Welcomed",
        RegistrationFault::Unproven => b"Unproven",
        RegistrationFault::BadChallenge => b"BadChallenge",
        RegistrationFault::Scram(fault) => scram_fault(fault),
    });
}

fn scram_fault(fault: ScramFault) -> &'static [u8] {
    match fault {
        ScramFault::Unreadable => b"Unreadable",
        ScramFault::ForeignNonce => b"ForeignNonce",
        ScramFault::TooFewIterations => b"TooFewIterations",
        ScramFault::TooManyIterations => b"TooManyIterations",
        ScramFault::BadSalt => b"BadSalt",
        ScramFault::ServerError => b"ServerError",
        ScramFault::WrongSignature => b"WrongSignature",
    }
}

fn show_account_fault(fault: CredentialsFault, out: &mut Sink) {
    out.put(match fault {
        CredentialsFault::NameLength => b"NameLength",
        CredentialsFault::NameBytes => b"NameBytes",
        CredentialsFault::PasswordLength => b"PasswordLength",
        CredentialsFault::PasswordBytes => b"PasswordBytes",
    });
}

fn nonce_of(word: &Text) -> Result<ScramNonce, CaseError> {
    if word.len() != 15 {
        return Err(BAD_WORDS);
    }
    let mut bytes = [0; 15];
    bytes.copy_from_slice(word.as_bytes());
    Ok(ScramNonce::of(&bytes))
}

// The mechanisms by their letters: w for SCRAM-SHA-512, s for SCRAM-SHA-256, e for EXTERNAL, p for PLAIN.
fn allowed_by(letters: &[u8]) -> Mechanisms {
    Mechanisms {
        scram_sha_512: letters.contains(&b'w'),
        scram_sha_256: letters.contains(&b's'),
        external: letters.contains(&b'e'),
        plain: letters.contains(&b'p'),
    }
}

// The capabilities by their first letters.
fn wanted_by(letters: &[u8]) -> Capabilities {
    Capabilities {
        account_notify: letters.contains(&b'a'),
        extended_join: letters.contains(&b'e'),
        multi_prefix: letters.contains(&b'm'),
        userhost_in_names: letters.contains(&b'u'),
        chghost: letters.contains(&b'c'),
        away_notify: letters.contains(&b'w'),
        invite_notify: letters.contains(&b'i'),
    }
}
