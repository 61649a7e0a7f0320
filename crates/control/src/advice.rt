// What to say instead of a command that is not understood.
use crate::command_word::CommandWord;
use bytetext::Failure;
use std::fmt;
use std::fmt::Display;

/// What to say instead of a command that is not understood, in the order of the checks.
#[derive(Clone, Copy, Debug, PartialEq, Eq)]
pub enum CommandAdvice {
    /// It has more than 600 bytes.
    TooLong,
    /// It has a NUL, a line feed or a carriage return.
    BareByte,
    /// The first word is unknown.
    Unknown,
    /// The line does not have the form of this word.
    Form(CommandWord),
}

/// Why a line is no command: what to say instead, or `NoMemory` if an allocation failed.
pub type CommandError = Failure<CommandAdvice>;

impl Display for CommandAdvice {
    fn fmt<W: fmt::Write>(&self, f: &mut fmt::Formatter<W>) -> fmt::Result {
        match *self {
            CommandAdvice::TooLong => f.write_str("say at most 600 bytes"),
            CommandAdvice::BareByte => f.write_str(
                "say it in one line, without a carriage return or NUL",
            ),
            CommandAdvice::Unknown => f.write_str(
                "begin with +chan, -chan, addban, addhost, adduser, backup, bind, bot, chan, changes, compact, delban, delhost, \
                 deluser, die, global, handover, info, jump, reload, renew, reopen, say, show, status, sticky, \
                 trust-this-copy, unbind or unignore",
            ),
            CommandAdvice::Form(word) => f.write_str(form_of(word)),
        }
    }
}

// The form of a command of this word.
fn form_of(word: CommandWord) -> &'static str {
    match word {
        CommandWord::AddChan =>
            "say +chan CHANNEL KEY, and the KEY may be left out, as in +chan #egg",
        CommandWord::DelChan => "say -chan CHANNEL, as in -chan #egg",
        CommandWord::AddBan =>
            "say addban CHANNEL MASK HANDLE EXPIRY COMMENT, as in addban #egg *!*@spam.example alice 0 no spam here",
        CommandWord::AddHost =>
            "say addhost HANDLE MASK, as in addhost alice *!*alice@host.example",
        CommandWord::AddUser => "say adduser HANDLE, as in adduser alice",
        CommandWord::Backup =>
            "say backup FOLDER, with FOLDER a path from / that nothing has yet, as in backup /var/backups/egg1",
        CommandWord::Bind => "say bind TYPE FLAGS PROC MASK, as in bind pub - echo !echo",
        CommandWord::Bot => "say bot HANDLE FLAGS, as in bot egg1 s",
        CommandWord::Chan => "say chan HANDLE CHANNEL FLAGS, as in chan alice #egg o",
        CommandWord::Changes => "say changes N, with N a change's number from 1, as in changes 17",
        CommandWord::Compact => "say compact alone",
        CommandWord::DelBan => "say delban CHANNEL MASK, as in delban #egg *!*@spam.example",
        CommandWord::DelHost =>
            "say delhost HANDLE MASK, as in delhost alice *!*alice@host.example",
        CommandWord::DelUser => "say deluser HANDLE, as in deluser alice",
        CommandWord::Die => "say die, and what the server is told after it, as in die back soon",
        CommandWord::Global => "say global HANDLE FLAGS, as in global alice o",
        CommandWord::HandOver => "say handover N, with N a leaf's number from 1, as in handover 3",
        CommandWord::Info => "say info HANDLE TEXT, as in info alice I keep the eggs",
        CommandWord::Jump => "say jump alone",
        CommandWord::Reload => "say reload alone",
        CommandWord::Renew => "say renew N, with N a leaf's number from 1, as in renew 3",
        CommandWord::Reopen => "say reopen alone",
        CommandWord::Say => "say say LINE, of at most 510 bytes, as in say PRIVMSG #egg :hello",
        CommandWord::Show => "say show, or show json",
        CommandWord::Status => "say status, or status json",
        CommandWord::Sticky =>
            "say sticky CHANNEL MASK N, with N 1 or 0, as in sticky #egg *!*@spam.example 1",
        CommandWord::Trust => "say trust-this-copy alone",
        CommandWord::Unbind => "say unbind TYPE PROC MASK, as in unbind pub echo !echo",
        CommandWord::Unignore =>
            "say unignore USER@HOST, as status shows it, as in unignore ann@host.example",
    }
}
