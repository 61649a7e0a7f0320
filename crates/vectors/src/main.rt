//! Answers test vectors: a line of standard input is a case, and the line of standard output for it is its answer.
//!
//! [`caselines`] says what a case is, how an answer shows bytes, and how the program ends. A case's first word says
//! what is asked:
//!
//! | case | answer |
//! |---|---|
//! | `fold TEXT` | the text's lower case |
//! | `same TEXT TEXT` | `same` or `not same` |
//! | `foldby MAPPING TEXT`, `sameby MAPPING TEXT TEXT` | as `fold` and `same`, by the casemapping that a server names so |
//! | `mask bind\|host MASK TEXT` | `match` or `no match`, or the code of why the mask is refused |
//! | `maskby MAPPING bind\|host MASK TEXT` | as `mask`, by the casemapping that a server names so |
//! | `literals bind\|host MASK` | how many literals the mask has, or the code of why it is refused |
//! | `tail bind\|host MASK` | the literals after the mask's last special item, 16 at most, or the code |
//! | `seems bind\|host MASK TEXT` | whether the text seems to have the mask's pairs, `yes` or `no`: in 128 places, and in 256 |
//! | `loose MASK` | the warning of a loose hostmask, or `not loose` |
//! | `flags EXPR GLOBAL CHAN BOT` | `met` or `not met`, or the code of the first word that is refused |
//! | `cron MASK MOMENT ZONE` | `match` or `no match`, or the code of a refusal |
//! | `civil MOMENT ZONE` | the civil minute as `YEAR MONTH DAY HOUR MINUTE WEEKDAY`, 0 for Sunday, or the code |
//! | `time MOMENT ZONE` | its time text, or the code |
//! | `timeargs MOMENT ZONE`, `cronargs MOMENT ZONE` | the arguments of a time or cron call, by commas, or the code |
//! | `zone ZONE` | `ok`, or the code of why there is no such zone |
//! | `clock READING..` | for each reading the seconds that it runs, `none` or the code; for `last` the last second |
//! | `timers STEP..` | what each step answers |
//! | `queues STEP..` | what each step answers |
//! | `journal STEP..` | what each step answers |
//! | `few BYTES` | `few` if the gates of a disk with these bytes show that a crash may have left it, or `more` |
//! | `behind BYTES OTHER` | `behind` if a disk of these bytes wouldn't count beside the other with its first gate open, or `unknown` |
//! | `binds STEP..` | what each step answers |
//! | `spell CHANGE` | the bytes that spell the change, or the code of what is wrong with its shape |
//! | `change BYTES`, `record BYTES` | how many bytes spell a change or record, and what they spell, or the code |
//! | `oldchange BYTES`, `oldrecord BYTES` | the same for a change or record of layout 1 |
//! | `pass COUNT BYTES` | the record after so many others, which are passed over, or the code |
//! | `respell change\|record BYTES` | the bytes that spell what was read, or the code |
//! | `frame PACKET` | the bytes that spell the packet |
//! | `frames PIECE..` | for each piece of a stream the packets that end in it and the code of the fault, or `none` |
//! | `line TEXT` | what the line reads as, or the code of its fault |
//! | `stream PIECE..` | the lines of a stream in these pieces, with ` ; ` between them |
//! | `feed PIECE..` | the lines that end in each piece of a stream, and last the one that its end ends, or `none` |
//! | `print PREFIX COMMAND PARAM..` | the line, or the code of why there is none |
//! | `prefix TEXT` | whom the prefix names |
//! | `numeric COMMAND` | the numeric's name in RFC 2812, or `other` |
//! | `person WHO CHANGE..` | WHO's handle, `*` for nobody |
//! | `userflags HANDLE CHANNEL CHANGE..` | the user's flags everywhere, on the channel and as a bot, `-` for none |
//! | `ban CHANNEL WHO MOMENT CHANGE..` | channel (`*` for all) and mask of the ban that keeps WHO off, or `no ban` |
//! | `info HANDLE CHANGE..` | the user's info text between quotes, empty for no user |
//! | `sticky CHANNEL MASK MOMENT CHANGE..` | channel and mask of the ban set again if MASK is removed, or `no ban` |
//! | `personby MAPPING ..`, `banby MAPPING ..`, `stickyby MAPPING ..` | as `person`, `ban` and `sticky`, by the casemapping that a server names so |
//! | `claim MAPPING ACCOUNT WHO CHANGE..` | `HANDLE by 'TEXT'` of WHO, who is logged in as ACCOUNT; TEXT is what hostmasks are matched against |
//! | `whois HANDLE NAME CHANGE.. lines NICK LINE..` | the lines that the proc `whois` sends to a caller of this handle |
//! | `keepbans CHANNEL NICK USER@HOST CHANGE.. lines OWN LINE..` | what the proc `keepbans` requests as NICK joins: lines, and looks as `SECONDS ADDRESS LINE` |
//! | `chan NICK LINE.. account WHO` | `account 'NAME'`, the account of the member with the nick WHO, or `no account` |
//! | `chan NICK LINE.. members CHANNEL` | the members in order, each as `@%+nick!user@host`, or `nobody` |
//! | `chan NICK LINE.. topic CHANNEL` | `topic 'TEXT'` or `not held` |
//! | `chan NICK LINE.. op CHANNEL NICK` | `op` or `no op` |
//! | `chan NICK LINE.. channels NICK` | the channels that the bot shares with the nick, in order, or `none` |
//! | `chan NICK LINE.. holds CHANNEL` | `held` or `not held` |
//! | `chan NICK LINE.. nick` | the bot's own nick |
//! | `events NICK LINE..` | the events of the last line, as `KIND 'SUBJECT' CHANNEL 'ARGUMENT'.. = ACCOUNT`, with ` ; ` between |
//! | `settings LINE..` | what a configuration file of these lines says, with ` ; ` between, or why it is refused |
//! | `long N` | the same for a file of N bytes `#` |
//! | `timeline MARK WALL/MONOTONIC..` | the reading of each pair of clocks; the monotonic one began at MARK |
//! | `redial NUMBER MOST STEP..` | when the next try is due after each step |
//! | `wire HEARD UNSENT STEP..` | what each step answers, with ` ; ` between |
//! | `hmac SECRET TEXT` | the code of the text under the secret |
//! | `leafkey SECRET NUMBER` | the line of the leaf's file |
//! | `tunnelkey SECRET NUMBER` | the leaf's line of the file of the tunnels' keys |
//! | `tunnels LINE..` | what stunnel is told of a configuration file of these lines |
//! | `secret BYTES` | whose key a file of these bytes holds, and the code of the empty text under it, or why it holds none |
//! | `hub SECRET NET LEAVES NONCE HEARD..` | what a hub says first, and then what it makes of each HEARD |
//! | `judge SECRET NET PARENT LEAVES NONCE PLACE VERSION SUM LAST MAY HEARD` | what a hub answers the leaf in HEARD |
//! | `leaf SECRET NUMBER LEAVES NET MADE VERSION SUM LAST NONCE HEARD..` | what a leaf makes of each HEARD, in turn |
//! | `book LEAVES LINES NUMBER MADE..` | the place of each leaf that shows a folder, or which line is bad |
//! | `late BEGAN NOW` | whether a handshake that began then is too late now |
//! | `pbkdf2 sha256\|sha512 PASSWORD SALT COUNT ROUNDS` | the salted password, with ROUNDS iterations in the first piece |
//! | `register NAME PASSWORD ALLOWED private\|open WANTED N512 N256 LINE..` | what the client says to each LINE |
//! | `seal SECRET frames\|beat CONTENT ..` | the bytes of each record of one direction, with ` ; ` between them |
//! | `open SECRET PIECE..` | for each piece what its records carry, as `frames BYTES` and `beats BYTES`, and the fault, or `none` |
//! | `query NUMBER NAME 4\|6` | the bytes of the query for NAME's addresses of this family, or `no name` |
//! | `reply NUMBER NAME 4\|6 BYTES` | what BYTES answer to that query: addresses, `nothing` or `no answer` |
//! | `hosts NAME LINE..` | the addresses of NAME in a file of hosts of these lines, or `none` |
//! | `cue NICK LINE` | what the line means for a bot with this nick |
//! | `regain WANTED STEP..` | what the process does after each step for the nick WANTED, which the bot is to have |
//! | `seat NUMBER STEP..` | the second at which the bot of this number asks to join its channel after each step, `on` or `never` |
//! | `servers LINE..` | the name servers in a configuration of the resolver of these lines |
//!
//! A ZONE is the minutes by which a clock is ahead of UTC, or a rule of POSIX as one word.
//!
//! WHO is `nick!user@host`. A CHANGE is one word that holds a change as a script asks for it; the changes, in order,
//! make a userfile of the empty one. The answer is the code of the first change that is refused, if one is.
//!
//! The steps of `timers` are `timer LAST INTERVAL COUNT PROC TEXT` and `utimer LAST INTERVAL COUNT PROC TEXT`, which
//! create a timer and answer its id or the code; `due SECOND`, which answers `ID PROC TEXT` of each call or `none`;
//! `kill ID` and `killnamed PROC TEXT`, which answer `killed` or the code; and `list`, which answers
//! `KIND LEFT PROC ID REPEATS TEXT` of each timer or `none`. LAST is the clock's last second, or `-` for none. A TEXT
//! may have spaces, and is left out if it is empty. Seconds don't fall, and `due` needs a later one.
//!
//! The steps of `queues` are `put QUEUE COUNT LINE`, which puts a line COUNT times and answers `ok` or the code of the
//! first refusal; `reserved QUEUE LINE`, which puts it into room that was reserved before, and answers the same;
//! `take NOW`, `drain NOW` and `joined MOST NOW`, where at most MOST modes of one channel go together, which answer the
//! lines that are sent or `none`; and `len QUEUE` and `clear QUEUE`, which answer a number. QUEUE is `mode`, `server` or `help`, and for the last two steps also `all`. Each step is one word,
//! and ` ; ` stands between the answers.
//!
//! `journal` makes a journal of layout 1 with the base `base` on two empty disks in memory. Its steps are
//! `append ENTRY`, `rebase BASE` and `renew LAYOUT BASE`, a rebase that writes another layout, which answer `ok` or the
//! code; `layout`, which answers the journal's layout; `fail DISK CALL TEAR`, which plans a fault; and `restart`, which
//! answers the base and the entries, with `, ` between, or the code. A planned fault is one of the `first` or the
//! `second` disk: its write or sync of number CALL, counted from then on, fails, and so do all later ones, until a
//! restart. The restart then finds what TEAR says in the ranges that weren't kept: `old` or `new` bytes, or this number
//! in each byte.
//!
//! The steps of `binds` are `bind KIND FLAGS PROC MASK` and `unbind KIND PROC MASK`, which answer the bind's number or
//! the code; `find KIND GLOBAL CHANNEL BOT SUBJECT`, which answers the numbers of the binds that are called; and
//! `list`, which answers `NUMBER KIND FLAGS PROC MASK` of each bind. The SUBJECT of cron is a moment, whose minute is
//! that of UTC. The last two steps answer `none` if there is none.
//!
//! A PACKET is words: `hello LAYOUT LEAF VERSION`, `change NUMBER ORIGIN REQUEST CHANGE`,
//! `request LEAF REQUEST CHANGE`, `accepted LEAF REQUEST NUMBER`, `refused LEAF REQUEST CODE` or `text FROM TO TEXT`.
//! `frames` also writes `part VERSION PART COUNT RECORDS`, where RECORDS is the number of records that it has.
//!
//! In `chan` and `events` the bot has connected under NICK and reads the LINEs in order; the answer is the code of the
//! first that is no message, if one is. Before a member's nick stand `@` for op, `%` for half-op and `+` for voice;
//! `!user@host` is left out if both are empty. An event on no channel has `-` as its CHANNEL, and ` = ACCOUNT` is left
//! out if no account is known.
//!
//! Line feeds stand between the LINEs of a file of `settings`; a file that ends with a line feed has the empty LINE
//! `''` last. The answer writes what the file says in its own words, in one order: `data`, `bot`, `nick`, `channel`,
//! `server`, `hub`, `listen`, `leaf`, `secret`, `account`, `zone`, `exclusive`, `log`, `perform`, and `bind` with its
//! line's number in front. A zone that is not UTC is written as what its clock shows at midnight UTC of 1 January and of 1
//! July 2026.
//!
//! The steps of `net` are `lost/NOW` and `good/NOW`: a connection was lost at NOW that was not good, or that was
//! good.
//!
//! `net` is a connection whose bounds are HEARD and UNSENT, over a scripted stream. Each of its steps is one word.
//! `give TEXT`, `end`, `stall` and `fault` read while the stream gives this, and answer how many bytes were heard, the
//! stream's answer, or `full`; `heard` answers what was heard and takes it. `tell TEXT` answers `told` or `too much`.
//! `take N`, `refuse` and `break` send while the stream takes N bytes, takes none, or fails, and answer how many bytes
//! it took, its answer, or `none` if nothing is unsent; `unsent` answers what is unsent. `over` answers `over` or
//! `not over`.
//!
//! The steps of `regain` are words that begin with their second and a `/`. After it stands nothing, and the process asks
//! if that is due; `nick NICK`, and the bot has this nick; or a line of the server. The answers are `ISON`, `NICK`,
//! `named` or `none`. The steps of `seat` are `SECOND/WORD`, where WORD is `welcome`, `join`, `off`, `bar`, `ask` or
//! `lose`.
//!
//! A hub or a leaf hears all bytes that came and were not used so far. The answers, with ` ; ` between, are `more`, why
//! it refuses, or how many of the bytes its line `used`, and what it `says`. The NET `-` is that of a leaf that keeps no
//! net, and the PARENT `-` that of a hub whose net is nobody's heir. In `judge` the place of the leaf's folder in the
//! hub's book is `free`, `same`, `taken` or `barred`, and the MAY of the leaf is `asks`, `reads` or `persons`. Of a key the
//! code of the empty text is shown. In a HEARD, in the BYTES of a secret and in the LINES of a book each `/` stands for a
//! line feed.
//!
//! `register` is a registration with the account NAME, `-` for none. ALLOWED has a letter for each mechanism that is
//! allowed: `w` for SCRAM-SHA-512, `s` for SCRAM-SHA-256, `e` for EXTERNAL and `p` for PLAIN. WANTED has the first letter
//! of each capability that is wanted, `w` for `away-notify`, or `-`. The nonces are of the 15 bytes N512 and N256. The
//! answers, with ` ; ` between, are the lines that the client `says`, or `none`, with `over` after them once it has
//! nothing more to say; or the name of the fault.
//!
//! The crate's files `stdin` and `stdout` hold the cases and the answers. The answers were worked out by hand from the
//! rules that each library states; the codes of `hmac` are those of RFC 4231, and what Python's module of that name
//! computes. The cases of bots, of their streams and of scripts are those of `botcases`.
#![tactic(auto)]

mod binds;
mod books;
mod case;
mod casemapping;
mod changes;
mod channels;
mod civil;
mod clock;
mod configurations;
mod cron;
mod edge;
mod events;
mod flags;
mod frames;
mod handshakes;
mod journals;
mod keepbans;
mod lines;
mod lookups;
mod masks;
mod persons;
mod puppet;
mod queues;
mod records;
mod registrations;
mod seconds;
mod spellings;
mod timers;
mod uplinks;
mod whois;
mod wires;

use bytetext::Text;
use caselines::{CaseError, Cases, Sink, answer_input};
use std::alloc::Global;
use std::process::ExitCode;

/// Answers the cases of the libraries.
struct Libraries;

impl Cases for Libraries {
    fn answer(&self, alloc: Global, words: &[Text], out: &mut Sink) -> Result<(), CaseError> {
        case::answer(alloc, words, out)
    }
}

fn main(rt: HostRuntime) -> ExitCode {
    answer_input(&rt, "vectors", &Libraries)
}
