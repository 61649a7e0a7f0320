// What the proc `whois` says of people.
use crate::changes::make_all;
use crate::channels::read_all;
use bytetext::{NoMemory, Text, Texts};
use caselines::{BAD_WORDS, CaseError, Sink};
use chanstate::ChanState;
use eggprocs::store;
use procs::{Action, Call, CallKind, View};
use std::alloc::Global;
use userfile::Userfile;

/// Answers `whois HANDLE NAME CHANGE.. lines NICK LINE..` on `out`: the lines that `whois` sends to a caller of this
/// handle who asks for NAME, or the code of the first change or line that is refused. The bot has connected under the
/// nick.
pub fn told(alloc: Global, words: &[Text], out: &mut Sink) -> Result<(), CaseError> {
    let Some(at) = words.iter().position(|word| word.is_same(b"lines")) else {
        return Err(BAD_WORDS);
    };
    let ([handle, name, changes @ ..], [_, nick, lines @ ..]) = (&words[..at], &words[at..]) else {
        return Err(BAD_WORDS);
    };
    let mut userfile = Userfile::new(alloc);
    let mut channels = ChanState::new(alloc, nick.as_bytes())?;
    if let Some(fault) = make_all(alloc, &mut userfile, changes)? {
        out.put(fault.code().as_bytes());
        return Ok(());
    }
    if let Some(fault) = read_all(alloc, &mut channels, lines)? {
        out.put(fault.code().as_bytes());
        return Ok(());
    }
    let call = call_by(alloc, handle.as_bytes(), name.as_bytes())?;
    answer_shown(alloc, &call, &View::new(&userfile, &channels, None), out)
}

// The call for a private message of a caller of this handle, whose nick is `boss`.
fn call_by(alloc: Global, handle: &[u8], name: &[u8]) -> Result<Call, NoMemory> {
    let mut args = Vec::new(alloc);
    for arg in [b"boss".as_slice(), b"b@b.net", handle, name] {
        args.push(Text::from_slice(alloc, arg)?)?;
    }
    Ok(Call {
        kind: CallKind::Msg,
        args: Texts::new(args),
    })
}

// The lines that the proc sends, with ` ; ` between.
fn answer_shown(
    alloc: Global,
    call: &Call,
    view: &View<'_>,
    out: &mut Sink,
) -> Result<(), CaseError> {
    let Ok(reply) = store(alloc)?.call(b"whois", call, view) else {
        return Err(CaseError::NoMemory);
    };
    for (i, action) in reply.actions.as_slice().iter().enumerate() {
        out.between(b" ; ", i);
        if let Action::Put(wish) = action {
            out.put(wish.line.as_bytes());
        }
    }
    out.put_if(reply.actions.is_empty(), b"none");
    Ok(())
}
