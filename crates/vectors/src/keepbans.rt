// What the proc `keepbans` requests as somebody joins.
use crate::changes::make_all;
use crate::channels::read_all;
use bytetext::{NoMemory, Text, Texts};
use caselines::{BAD_WORDS, CaseError, Sink};
use chanstate::ChanState;
use eggprocs::store;
use procs::{Action, Call, CallKind, View};
use std::alloc::Global;
use userfile::Userfile;

/// Answers `keepbans CHANNEL NICK USER@HOST CHANGE.. lines OWN LINE..` on `out`: what `keepbans` requests at second 1000 as
/// NICK joins, or the code of the first change or line that is refused. The bot has connected under the nick OWN.
pub fn kept(alloc: Global, words: &[Text], out: &mut Sink) -> Result<(), CaseError> {
    let Some(at) = words.iter().position(|word| word.is_same(b"lines")) else {
        return Err(BAD_WORDS);
    };
    let ([channel, nick, host, changes @ ..], [_, own, lines @ ..]) = (&words[..at], &words[at..])
    else {
        return Err(BAD_WORDS);
    };
    let mut userfile = Userfile::new(alloc);
    let mut channels = ChanState::new(alloc, own.as_bytes())?;
    if let Some(fault) = make_all(alloc, &mut userfile, changes)? {
        out.put(fault.code().as_bytes());
        return Ok(());
    }
    if let Some(fault) = read_all(alloc, &mut channels, lines)? {
        out.put(fault.code().as_bytes());
        return Ok(());
    }
    let call = call_by(
        alloc,
        &[nick.as_bytes(), host.as_bytes(), b"*", channel.as_bytes()],
    )?;
    let view = View::new(&userfile, &channels, Some(1000));
    answer_shown(alloc, &call, &view, out)
}

// The call for a join, with these arguments.
fn call_by(alloc: Global, words: &[&[u8]]) -> Result<Call, NoMemory> {
    let mut args = Vec::new(alloc);
    for word in words {
        args.push(Text::from_slice(alloc, word)?)?;
    }
    Ok(Call {
        kind: CallKind::Join,
        args: Texts::new(args),
    })
}

// The lines that the proc sends, and its looks as `SECONDS TEXT`, with ` ; ` between.
fn answer_shown(
    alloc: Global,
    call: &Call,
    view: &View<'_>,
    out: &mut Sink,
) -> Result<(), CaseError> {
    let Ok(reply) = store(alloc)?.call(b"keepbans", call, view) else {
        return Err(CaseError::NoMemory);
    };
    for (i, action) in reply.actions.as_slice().iter().enumerate() {
        out.between(b" ; ", i);
        action_shown(action, out);
    }
    out.put_if(reply.actions.is_empty(), b"none");
    Ok(())
}

fn action_shown(action: &Action, out: &mut Sink) {
    match action {
        Action::Put(wish) => out.put(wish.line.as_bytes()),
        Action::Utimer(wish) => {
            out.number(u64::from(wish.interval));
            out.put(b" ");
            out.put(wish.text.as_bytes());
        }
        Action::Ask(_) | Action::Timer(_) | Action::KillTimer(_) | Action::SendBot(_) => {}
    }
}
