// Lines of IRC.
use bytetext::{NoMemory, Text, Texts, TryCopy, copies_of};
use caselines::{BAD_WORDS, CaseError, Sink, line_shown};
use ircline::{Line, LineReader, Message, Numeric, Person, PrintError, Source};
use std::alloc::Global;

/// Answers `line TEXT` on `out`: what the line reads as: `'PREFIX' COMMAND 'PARAM'.. rest 'REST'`, or the code of its
/// fault.
pub fn line(alloc: Global, words: &[Text], out: &mut Sink) -> Result<(), CaseError> {
    let [text] = words else {
        return Err(BAD_WORDS);
    };
    let line = ircline::read_line(alloc, text.as_bytes())?;
    line_shown(&line.copy(alloc)?, out);
    Ok(())
}

/// Answers `stream PIECE..` on `out`: the lines of a stream in these pieces, with ` ; ` between them.
pub fn stream(alloc: Global, words: &[Text], out: &mut Sink) -> Result<(), CaseError> {
    let lines = ircline::read_pieces(alloc, words)?;
    for (i, line) in lines.iter().enumerate() {
        out.between(b" ; ", i);
        line_shown(line, out);
    }
    Ok(())
}

/// Answers `feed PIECE..` on `out`: the lines that end in each piece of a stream, and last the line that the stream's
/// end ends, with ` ; ` between the pieces and `, ` between the lines, or `none`. The reader is copied before each.
pub fn feed(alloc: Global, words: &[Text], out: &mut Sink) -> Result<(), CaseError> {
    let mut reader = LineReader::new(alloc);
    for piece in words {
        reader = reader.copy(alloc)?;
        lines_shown(&reader.feed(alloc, piece.as_bytes())?, out);
        out.put(b" ; ");
    }
    match reader.copy(alloc)?.finish(alloc)? {
        Some(line) => line_shown(&line, out),
        None => out.put(b"none"),
    }
    Ok(())
}

fn lines_shown(lines: &[Line], out: &mut Sink) {
    for (i, line) in lines.iter().enumerate() {
        out.between(b", ", i);
        line_shown(line, out);
    }
    out.put_if(lines.is_empty(), b"none");
}

/// Answers `print PREFIX COMMAND PARAM..` on `out`: the line, or the code of why there is none.
pub fn print(alloc: Global, words: &[Text], out: &mut Sink) -> Result<(), CaseError> {
    let [prefix, command, params @ ..] = words else {
        return Err(BAD_WORDS);
    };
    let message = message_of(alloc, prefix, command, params)?;
    match ircline::print(alloc, &message) {
        Ok(line) => out.put(line.as_slice()),
        Err(PrintError::Refused(fault)) => out.put(fault.code().as_bytes()),
        Err(PrintError::NoMemory) => return Err(CaseError::NoMemory),
    }
    Ok(())
}

/// Answers `prefix TEXT` on `out`: whom the prefix names.
pub fn prefix(words: &[Text], out: &mut Sink) -> Result<(), CaseError> {
    let [text] = words else {
        return Err(BAD_WORDS);
    };
    match ircline::source(text.as_bytes()) {
        Source::None => out.put(b"nobody"),
        Source::Server(name) => {
            out.put(b"server");
            out.quoted(name);
        }
        Source::Person(Person { nick, user, host }) => {
            out.put(b"person");
            out.quoted(nick);
            out.quoted(user);
            out.quoted(host);
        }
    }
    Ok(())
}

/// Answers `numeric COMMAND` on `out`: the name of the numeric in RFC 2812, or `other`.
pub fn numeric(words: &[Text], out: &mut Sink) -> Result<(), CaseError> {
    let [command] = words else {
        return Err(BAD_WORDS);
    };
    let name = match ircline::numeric_of(command.as_bytes()) {
        Numeric::Welcome => b"RPL_WELCOME".as_slice(),
        Numeric::ErroneousNickname => b"ERR_ERRONEUSNICKNAME",
        Numeric::NicknameInUse => b"ERR_NICKNAMEINUSE",
        Numeric::NickCollision => b"ERR_NICKCOLLISION",
        Numeric::UnavailableResource => b"ERR_UNAVAILRESOURCE",
        Numeric::Other => b"other",
    };
    out.put(name);
    Ok(())
}

fn message_of(
    alloc: Global,
    prefix: &Text,
    command: &Text,
    params: &[Text],
) -> Result<Message, NoMemory> {
    match (
        prefix.copy(alloc),
        command.copy(alloc),
        copies_of(alloc, params),
    ) {
        (Ok(prefix), Ok(command), Ok(params)) => Ok(Message {
            prefix,
            command,
            params: Texts::new(params),
            rest: Text::empty(alloc),
        }),
        (_, _, _) => Err(NoMemory),
    }
}
