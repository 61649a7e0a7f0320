// A line of an admin, read.
ghost use Rattle.std.specs.Prelude.{◌≡◌, ◌∷◌, map, IfOk};
ghost use Rattle.std.specs.List.{list_all, list_any};
ghost use Rattle.recordtext.specs.Words.{number_below};
ghost use Rattle.control.specs.Reading.{Answers, alone, backup_said, bind_said, bound, changes_from, changes_said, command_by_words, die_said};
ghost use Rattle.control.specs.Reading.{die_text, folder_named, handed_over, handover_said, is_absolute, is_bare, is_key, is_key_byte, join_said, joined, part_said};
ghost use Rattle.control.specs.Reading.{renew_said, renewed, said, say_said, show_said, status_said, unbind_said, unbound, unignore_said};

use crate::admin_command::{AdminCommand, ChannelWords, UnbindWords};
use crate::advice::{CommandAdvice, CommandError};
use crate::command_word::CommandWord;
use crate::{MAX_COMMAND, MAX_KEY, MAX_LINE};
use bytetext::{Failure, Text};
use recordtext::{edit_named, number, pieces_of, rest_of};
use rfccase::is_channel_name;
use settings::{BindWords, value_of_digits};
use std::alloc::Global;
use userfile::Change;

impl AdminCommand {
    ghost use Rattle.std.specs.Prelude.{◌≡◌, ◌<◌, ◌≤◌, true, length, Err};
    ghost use Rattle.std.specs.List.{list_any};
    ghost use Rattle.bytetext.specs.declared.failure.Failure.TheVariants as failure;
    ghost use Rattle.control.specs.declared.advice.CommandAdvice.TheVariants.{BareByte, TooLong};
    ghost use Rattle.control.specs.Reading.{Answers, command_of, is_bare};

    /// Reads the command that `line`, without its line feed, asks for.
    ///
    /// # Errors
    /// `Refused` with what to say instead; `NoMemory` if an allocation fails before that is seen. The checks of the
    /// length, and of bytes that no line may have, don't allocate.
    pub fn read(alloc: Global, line: &[u8]) -> Result<AdminCommand, CommandError>
        ensures reads { Answers (command_of line.now) result }
        ensures too_long { MAX_COMMAND < length line.now → result ≡ Err (failure.Refused TooLong) }
        ensures bare_byte { length line.now ≤ MAX_COMMAND → list_any is_bare line.now ≡ true
            → result ≡ Err (failure.Refused BareByte) }
    {
        if line.len() > MAX_COMMAND {
            return Err(Failure::Refused(CommandAdvice::TooLong));
        }
        if has_bare_byte(line) {
            return Err(Failure::Refused(CommandAdvice::BareByte));
        }
        let words = pieces_of(alloc, line, b' ')?;
        command_by_words(alloc, words.as_slice())
    }
}

// Whether a line has a byte that no line of IRC may have.
fn has_bare_byte(line: &[u8]) -> bool
    ensures { result ≡ list_any is_bare line.now }
{
    line.iter().any(|byte| is_bare(*byte))
}

// NUL, LF and CR (RFC 2812 section 2.3.1).
fn is_bare(byte: u8) -> bool
    ensures { result ≡ is_bare byte }
{
    byte == 0 || byte == b'\n' || byte == b'\r'
}

// The first word says what is asked for, and what may follow it.
fn command_by_words(alloc: Global, words: &[&[u8]]) -> Result<AdminCommand, CommandError>
    ensures { Answers (command_by_words (map (λ word. word.now) words.now)) result }
{
    let [name, words @ ..] = words else {
        return Err(Failure::Refused(CommandAdvice::Unknown));
    };
    let Some(word) = CommandWord::named(name) else {
        return Err(Failure::Refused(CommandAdvice::Unknown));
    };
    match word {
        CommandWord::AddBan
        | CommandWord::AddHost
        | CommandWord::AddUser
        | CommandWord::Bot
        | CommandWord::Chan
        | CommandWord::DelBan
        | CommandWord::DelHost
        | CommandWord::DelUser
        | CommandWord::Global
        | CommandWord::Info
        | CommandWord::Sticky => match edit_named(alloc, name, words)? {
            Some(edit) => Ok(AdminCommand::Change(Change::by_nobody(edit))),
            None => Err(Failure::Refused(CommandAdvice::Form(word))),
        },
        CommandWord::AddChan => join_said(alloc, words),
        CommandWord::DelChan => part_said(alloc, words),
        CommandWord::Backup => backup_said(alloc, words),
        CommandWord::Bind => bind_said(alloc, words),
        CommandWord::Changes => changes_said(words),
        CommandWord::Compact => alone(word, words, AdminCommand::Compact),
        CommandWord::Die => die_said(alloc, words),
        CommandWord::HandOver => handover_said(words),
        CommandWord::Jump => alone(word, words, AdminCommand::Jump),
        CommandWord::Reload => alone(word, words, AdminCommand::Reload),
        CommandWord::Renew => renew_said(words),
        CommandWord::Reopen => alone(word, words, AdminCommand::Reopen),
        CommandWord::Say => say_said(alloc, words),
        CommandWord::Show => show_said(words),
        CommandWord::Status => status_said(words),
        CommandWord::Trust => alone(word, words, AdminCommand::Trust),
        CommandWord::Unbind => unbind_said(alloc, words),
        CommandWord::Unignore => unignore_said(alloc, words),
    }
}

// A word that stands alone.
fn alone(
    word: CommandWord,
    words: &[&[u8]],
    command: AdminCommand,
) -> Result<AdminCommand, CommandError>
    ensures { Answers (alone word (map (λ word. word.now) words.now) command) result }
{
    if words.is_empty() {
        Ok(command)
    } else {
        Err(Failure::Refused(CommandAdvice::Form(word)))
    }
}

// Nothing, or `json`.
fn show_said(words: &[&[u8]]) -> Result<AdminCommand, CommandError>
    ensures { Answers (show_said (map (λ word. word.now) words.now)) result }
{
    match words {
        [] => Ok(AdminCommand::Show),
        [form] if *form == b"json".as_slice() => Ok(AdminCommand::ShowJson),
        [_] | [_, _, ..] => Err(Failure::Refused(CommandAdvice::Form(CommandWord::Show))),
    }
}

// Nothing, or `json`.
fn status_said(words: &[&[u8]]) -> Result<AdminCommand, CommandError>
    ensures { Answers (status_said (map (λ word. word.now) words.now)) result }
{
    match words {
        [] => Ok(AdminCommand::Status),
        [form] if *form == b"json".as_slice() => Ok(AdminCommand::StatusJson),
        [_] | [_, _, ..] => Err(Failure::Refused(CommandAdvice::Form(CommandWord::Status))),
    }
}

// FOLDER
fn backup_said(alloc: Global, words: &[&[u8]]) -> Result<AdminCommand, CommandError>
    ensures { Answers (backup_said (map (λ word. word.now) words.now)) result }
{
    match words {
        [first, rest @ ..] => folder_named(rest_of(alloc, first, rest)?),
        [] => Err(Failure::Refused(CommandAdvice::Form(CommandWord::Backup))),
    }
}

// The folder of this name, if it is a path from the root.
fn folder_named(folder: Option<Text>) -> Result<AdminCommand, CommandError>
    ensures { Answers (folder_named folder) result }
{
    match folder {
        Some(folder) if is_absolute(folder.as_bytes()) => Ok(AdminCommand::Backup(folder)),
        Some(_) | None => Err(Failure::Refused(CommandAdvice::Form(CommandWord::Backup))),
    }
}

// A bot runs in a folder that an admin can't see, so a path from there would mean another place.
fn is_absolute(path: &[u8]) -> bool
    ensures { result ≡ is_absolute path.now }
{
    match path {
        [first, ..] => *first == b'/',
        [] => false,
    }
}

// CHANNEL, or CHANNEL KEY
fn join_said(alloc: Global, words: &[&[u8]]) -> Result<AdminCommand, CommandError>
    ensures { Answers (join_said (map (λ word. word.now) words.now)) result }
{
    match words {
        [name] => joined(alloc, name, None),
        [name, key] if is_key(key) => joined(alloc, name, Some(Text::from_slice(alloc, key)?)),
        [] | [_, _] | [_, _, _, ..] => Err(Failure::Refused(CommandAdvice::Form(
            CommandWord::AddChan,
        ))),
    }
}

// The channel of this name and key, if that is a name.
fn joined(alloc: Global, name: &[u8], key: Option<Text>) -> Result<AdminCommand, CommandError>
    ensures { Answers (joined name.now key) result }
{
    if !is_channel_name(name) {
        return Err(Failure::Refused(CommandAdvice::Form(CommandWord::AddChan)));
    }
    Ok(AdminCommand::Join(ChannelWords {
        channel: Text::from_slice(alloc, name)?,
        key,
    }))
}

// CHANNEL
fn part_said(alloc: Global, words: &[&[u8]]) -> Result<AdminCommand, CommandError>
    ensures { Answers (part_said (map (λ word. word.now) words.now)) result }
{
    match words {
        [name] if is_channel_name(name) => {
            Ok(AdminCommand::Part(Text::from_slice(alloc, name)?))
        }
        [] | [_] | [_, _, ..] => Err(Failure::Refused(CommandAdvice::Form(CommandWord::DelChan))),
    }
}

// USER@HOST
fn unignore_said(alloc: Global, words: &[&[u8]]) -> Result<AdminCommand, CommandError>
    ensures { Answers (unignore_said (map (λ word. word.now) words.now)) result }
{
    match words {
        [key] if !key.is_empty() => { Ok(AdminCommand::Unignore(Text::from_slice(alloc, key)?)) }
        [] | [_] | [_, _, ..] => Err(Failure::Refused(CommandAdvice::Form(CommandWord::Unignore))),
    }
}

// Whether a word can stand as a key in a JOIN, which is no list of keys and no text at the line's end.
fn is_key(word: &[u8]) -> bool
    ensures { result ≡ is_key word.now }
{
    if word.is_empty() || word.len() > MAX_KEY || word[0] == b':' {
        return false;
    }
    are_key_bytes(word)
}

fn are_key_bytes(word: &[u8]) -> bool
    ensures { result ≡ list_all is_key_byte word.now }
{
    word.iter().all(|byte| is_key_byte(*byte))
}

// Neither a control byte nor a space nor a comma.
fn is_key_byte(byte: u8) -> bool
    ensures { result ≡ is_key_byte byte }
{
    byte > b' ' && byte != b','
}

// TYPE FLAGS PROC MASK..
fn bind_said(alloc: Global, words: &[&[u8]]) -> Result<AdminCommand, CommandError>
    ensures { Answers (bind_said (map (λ word. word.now) words.now)) result }
{
    match words {
        [kind, flags, proc, mask, rest @ ..] => bound(
            alloc,
            kind,
            flags,
            proc,
            rest_of(alloc, mask, rest)?,
        ),
        [] | [_] | [_, _] | [_, _, _] => Err(Failure::Refused(CommandAdvice::Form(
            CommandWord::Bind,
        ))),
    }
}

// PROC MASK.. of a type
fn unbind_said(alloc: Global, words: &[&[u8]]) -> Result<AdminCommand, CommandError>
    ensures { Answers (unbind_said (map (λ word. word.now) words.now)) result }
{
    match words {
        [kind, proc, mask, rest @ ..] => unbound(alloc, kind, proc, rest_of(alloc, mask, rest)?),
        [] | [_] | [_, _] => Err(Failure::Refused(CommandAdvice::Form(CommandWord::Unbind))),
    }
}

// A leaf's number.
fn renew_said(words: &[&[u8]]) -> Result<AdminCommand, CommandError>
    ensures { Answers (renew_said (map (λ word. word.now) words.now)) result }
{
    match words {
        [number] => renewed(value_of_digits(number)),
        [] | [_, _, ..] => Err(Failure::Refused(CommandAdvice::Form(CommandWord::Renew))),
    }
}

// The leaf of this number, if it is from 1.
fn renewed(number: Option<u16>) -> Result<AdminCommand, CommandError>
    ensures { Answers (renewed number) result }
{
    match number {
        Some(0) | None => Err(Failure::Refused(CommandAdvice::Form(CommandWord::Renew))),
        Some(leaf) => Ok(AdminCommand::Renew(leaf)),
    }
}

// The number of the leaf that is to take the hub's place.
fn handover_said(words: &[&[u8]]) -> Result<AdminCommand, CommandError>
    ensures { Answers (handover_said (map (λ word. word.now) words.now)) result }
{
    match words {
        [number] => handed_over(value_of_digits(number)),
        [] | [_, _, ..] => Err(Failure::Refused(CommandAdvice::Form(CommandWord::HandOver))),
    }
}

// The leaf of this number, if it is from 1.
fn handed_over(number: Option<u16>) -> Result<AdminCommand, CommandError>
    ensures { Answers (handed_over number) result }
{
    match number {
        Some(0) | None => Err(Failure::Refused(CommandAdvice::Form(CommandWord::HandOver))),
        Some(leaf) => Ok(AdminCommand::HandOver(leaf)),
    }
}

// The number of a change.
fn changes_said(words: &[&[u8]]) -> Result<AdminCommand, CommandError>
    ensures { Answers (changes_said (map (λ word. word.now) words.now)) result }
{
    match words {
        [from] => changes_from(change_number(from)),
        [] | [_, _, ..] => Err(Failure::Refused(CommandAdvice::Form(CommandWord::Changes))),
    }
}

// The accepted changes from this number on, if it is from 1.
fn changes_from(from: Option<u32>) -> Result<AdminCommand, CommandError>
    ensures { Answers (changes_from from) result }
{
    match from {
        Some(0) | None => Err(Failure::Refused(CommandAdvice::Form(CommandWord::Changes))),
        Some(from) => Ok(AdminCommand::Changes(from)),
    }
}

// The number that the digits of `word` mean, if a change can have it.
fn change_number(word: &[u8]) -> Option<u32>
    ensures { result ≡ number_below 4294967296 word.now }
{
    let number = number(word)?;
    if number < 4294967296 {
        Some(number as u32)
    } else {
        None
    }
}

// A line for the server.
fn say_said(alloc: Global, words: &[&[u8]]) -> Result<AdminCommand, CommandError>
    ensures { Answers (say_said (map (λ word. word.now) words.now)) result }
{
    match words {
        [first, rest @ ..] => said(rest_of(alloc, first, rest)?),
        [] => Err(Failure::Refused(CommandAdvice::Form(CommandWord::Say))),
    }
}

// What the bot sends to the server at its end.
fn die_said(alloc: Global, words: &[&[u8]]) -> Result<AdminCommand, CommandError>
    ensures { Answers (die_said (map (λ word. word.now) words.now)) result }
{
    match words {
        [first, rest @ ..] => Ok(AdminCommand::Die(die_text(alloc, rest_of(alloc, first, rest)?))),
        [] => Ok(AdminCommand::Die(Text::empty(alloc))),
    }
}

// This text, which is empty if the rest of the line is empty.
fn die_text(alloc: Global, rest: Option<Text>) -> Text
    ensures { result ≡ die_text rest }
{
    match rest {
        Some(text) => text,
        None => Text::empty(alloc),
    }
}

// A bind by its parts.
fn bound(
    alloc: Global,
    kind: &[u8],
    flags: &[u8],
    proc: &[u8],
    mask: Option<Text>,
) -> Result<AdminCommand, CommandError>
    ensures { Answers (bound kind.now flags.now proc.now mask) result }
{
    let Some(mask) = mask else {
        return Err(Failure::Refused(CommandAdvice::Form(CommandWord::Bind)));
    };
    if kind.is_empty() || flags.is_empty() || proc.is_empty() {
        return Err(Failure::Refused(CommandAdvice::Form(CommandWord::Bind)));
    }
    Ok(AdminCommand::Bind(BindWords {
        kind: Text::from_slice(alloc, kind)?,
        flags: Text::from_slice(alloc, flags)?,
        proc: Text::from_slice(alloc, proc)?,
        mask,
    }))
}

// A bind to remove, by its parts.
fn unbound(
    alloc: Global,
    kind: &[u8],
    proc: &[u8],
    mask: Option<Text>,
) -> Result<AdminCommand, CommandError>
    ensures { Answers (unbound kind.now proc.now mask) result }
{
    let Some(mask) = mask else {
        return Err(Failure::Refused(CommandAdvice::Form(CommandWord::Unbind)));
    };
    if kind.is_empty() || proc.is_empty() {
        return Err(Failure::Refused(CommandAdvice::Form(CommandWord::Unbind)));
    }
    Ok(AdminCommand::Unbind(UnbindWords {
        kind: Text::from_slice(alloc, kind)?,
        proc: Text::from_slice(alloc, proc)?,
        mask,
    }))
}

// The line for the server, if there is one and it is not too long.
fn said(line: Option<Text>) -> Result<AdminCommand, CommandError>
    ensures { Answers (said line) result }
{
    match line {
        Some(line) if line.len() <= MAX_LINE => Ok(AdminCommand::Say(line)),
        Some(_) | None => Err(Failure::Refused(CommandAdvice::Form(CommandWord::Say))),
    }
}
