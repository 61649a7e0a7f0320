//! Answers test vectors of bots, their turns, their streams and scripts: each line of standard input is a case, and its
//! answer is a line of standard output.
//!
//! [`caselines`] says what a case is, how an answer shows bytes, and how the program ends. A case's first word names
//! it:
//!
//! | case | answer |
//! |---|---|
//! | `config NICK LEAVES NUMBER OFFSET CHANNEL..` | `ok`, or the code of why no bot can be made so |
//! | `bot NUMBER SETTING STEP..` | what each step answers |
//! | `drive MOMENT MOST AFTER ROOM STREAM` | how driving a bot ends, what it wrote, and how many reads it made |
//! | `script LINE..` | the transcript of this script, with ` ; ` between its lines, or the first faulty line |
//! | `commands LINE..` | how many leaves this script has, and its commands as read, or the first faulty line |
//! | `why LINE..` | what is wrong with the first faulty line of this script, or `none` |
//! | `live LINE..` | what this live script prints, with ` ; ` between its lines, or why it ended early |
//! | `turn LEAVES STEP..` | what a new hub `egg` of LEAVES leaves reports in each of its turns, with ` \| ` between |
//! | `inbox STREAMS STEP..` | what each step of an inbox of STREAMS streams answers, with ` \| ` between |
//! | `said LEAF PACKET..` | for each packet, whether it names this leaf as the one that says it |
//!
//! The binds of a `script` or a `live` script may call these procs. All answer 0, except `stop`:
//! - `quiet` does nothing more;
//! - `stop` answers 1;
//! - `adduser` asks for a user whose handle is the call's last argument;
//! - `echo` says again what was said;
//! - `texts` sends leaf 1 the text `op me` eight times;
//! - `look` says to whoever spoke on a channel what it sees: the handle, `op` or `no op`, and the clock's second;
//! - `later` has `quiet` called with its last argument five seconds later, and `never` ends that.
//!
//! `commands` writes each step as its bot and the event that the bot gets; it writes `, ` between the steps of one
//! command, or `none` if the command has no step. `live` opens sockets of this machine.
//!
//! `bot` makes the bot `egg` of this number: 0 is the hub, and 1 its only leaf. SETTING is `all`,
//! `exclusive`, or `at-once` for a bot that sends at once. Its steps are `bind KIND FLAGS PROC MASK`, which answers the bind's number; `runs`, which answers how often procs have
//! run; and `connect`, `line TEXT` and `clock MOMENT`. These answer each call as `BIND PROC KIND 'ARGUMENT'.. CODE`,
//! then each line that is sent as `out 'LINE'`, then each fault, `Unbound PROC` or a code, and then `logged` or `not
//! logged`, with `, ` between. A step that is refused answers the code. The procs are those of a `script`.
//!
//! `drive` has the bot `egg` read STREAM, at most MOST bytes a read, while its clock shows MOMENT. AFTER says what
//! follows the stream: its `end`; `wait`, a read that would block; `fault`; or `again`, the stream once more. The
//! writer takes ROOM bytes and no more. The answer is `done`, `read` or `write`, what was written, and how many reads
//! were made.
//!
//! A step of `turn` is one word. The hub hears `connect`, `bytes TEXT`, `line TEXT` (with CR and LF), `at MOMENT`,
//! `packet PACKET`, `ask HANDLE` (to add this user), `pump` and `compact`; `go` takes a turn of what it heard since the
//! last one. For each report the answer has the note, or the code of the refusal; then each line between quotes, and
//! each packet as its addressee, its kind and its first number: the version, the change's number, the request's number,
//! or the bot that says a text. Reports have ` ; ` between.
//!
//! A step of `peers` is `put STREAM COUNT`, which puts COUNT hellos of the leaf of that number and answers nothing;
//! `forget STREAM`; `count STREAM`, which answers how many wait; or `take`, which answers `took` and how many a turn
//! takes of one stream after another, as `STREAM:COUNT`.
//!
//! A packet is `hello LEAF VERSION`, `request LEAF NUMBER HANDLE`, `accepted LEAF REQUEST NUMBER` or `text FROM TO
//! WORDS`.
//!
//! The crate's files `stdin` and `stdout` hold the cases and the answers, which were worked out by hand from the rules
//! that each library states. The cases of the libraries below are in `vectors`.
#![tactic(auto)]

mod bots;
mod case;
mod case_procs;
mod drives;
mod hubs;
mod inboxes;
mod lives;
mod packets;
mod reports;
mod scripts;

use bytetext::Text;
use caselines::{CaseError, Cases, Sink, answer_input};
use std::alloc::Global;
use std::net::Net;
use std::process::ExitCode;

/// Answers cases of bots, on a machine whose sockets it may open.
#[derive(Drop)]
struct BotCases<'a, R: Net + AllocGlobal> {
    rt: &'a R,
}

impl<R: Net + AllocGlobal> Cases for BotCases<'_, R> {
    fn answer(&self, _alloc: Global, words: &[Text], out: &mut Sink) -> Result<(), CaseError> {
        case::answer(self.rt, words, out)
    }
}

fn main(rt: HostRuntime) -> ExitCode {
    answer_input(&rt, "botcases", &BotCases { rt: &rt })
}
