//! The procs of the programs: order on a channel, people of the userfile, and a few to try things out with.
//!
//! [`store`] creates a store of all of them, and a bind says which word or event calls which proc. The promise [`Ours`]
//! fixes each answer exactly: the code depends on the proc's name, and the actions on its name, its call and what it
//! sees of its bot. `specs/Procs` has the names, and the other files of `specs/` say what each proc requests. `stop`
//! answers 1, every other proc 0.
//!
//! The caller is the person whose word or event calls the proc. A proc that is bound to another kind of event than its
//! own requests nothing. If a table lists flags, the caller needs one of them, everywhere or on the channel, under the
//! handle by which the bot knows the caller. A caller without the flag causes no action ([`commands_want_flags`]). The
//! flag `n` gives `m`, and `m` gives `o`. So if a table lists `o`, one of `m` and `n` also serves. Except for `opall`
//! and `greet`, the procs of the first two tables also do nothing on a channel on which the bot itself is no operator
//! ([`commands_want_an_operator`]).
//!
//! On a channel, where the words are those after the bind's own word:
//!
//! | Proc | Kind | Flags | Words | What it requests |
//! |---|---|---|---|---|
//! | `op`, `deop` | `pub` | `o` | NICK or none | `MODE CHANNEL +o NICK`, or `-o` |
//! | `voice`, `devoice` | `pub` | `o`, `v` | NICK or none | `MODE CHANNEL +v NICK`, or `-v` |
//! | `autoop` | `join` | `a`, `g` | | `MODE CHANNEL +o NICK`, or `+v` |
//! | `opall` | `join`, `mode` | `a`, `g` | | `MODE CHANNEL +o NICK`, or `+v`, for members |
//! | `kick` | `pub` | `o` | NICK REASON | `KICK CHANNEL NICK :REASON` |
//! | `topic` | `pub` | `o` | TEXT | `TOPIC CHANNEL :TEXT` |
//! | `invite` | `pub` | `o` | NICK | `INVITE NICK CHANNEL` |
//! | `ban` | `pub` | `o` | MASK MINUTES COMMENT | a ban, `MODE CHANNEL +b MASK`, and a later call of `lift` |
//! | `unban` | `pub` | `o` | MASK | the end of the ban, and `MODE CHANNEL -b MASK` |
//! | `greet` | `join` | | | `PRIVMSG CHANNEL :[NICK] INFO` |
//! | `keepbans` | `join` | | | `MODE CHANNEL +b MASK` and `KICK CHANNEL NICK :COMMENT` |
//!
//! - `op`, `deop`, `voice` and `devoice` without a NICK change the caller's mode.
//! - `autoop` gives op to a caller who joins with the flag `a`, and otherwise voice.
//! - `opall` gives the same when the bot gets op: it requests modes for the first eight members that lack one, in the
//!   order in which they came, and leaves out operators. It matches the hosts that the server has sent, so it requests
//!   `WHO CHANNEL` when the bot itself joins.
//! - `kick` without a REASON gives the reason `request`.
//! - `ban` and `unban` change the ban in the userfile and on the channel. A ban ends MINUTES minutes after the second
//!   that the bot's clock shows. In the userfile it never ends if no number of minutes below 2^32 follows the mask, if
//!   that number is 0, or if the clock shows no second yet. COMMENT is what follows, up to 100 bytes.
//! - If the userfile has a ban of this MASK on the channel that has ended, `ban` requests its deletion first
//!   ([`bans_end_at_their_second`]).
//! - `lift` is for the timer that `ban` requests: with the text CHANNEL MASK it requests `MODE CHANNEL -b MASK`. A
//!   restart loses this timer like all timers of a bot, but the ban in the userfile still ends, and `expire` removes it
//!   from the channel.
//! - `greet` greets a caller who joins and has an info line, whether the bot is an operator or not. It greets nobody
//!   without one ([`greetings_want_an_info`]).
//! - `keepbans` is for anybody but the bot who joins under a ban of the userfile: one of the channel or of all channels,
//!   which has not ended. It sets the first such ban, and its reason is the ban's comment, or `banned` without one. It
//!   spares nobody for a flag ([`recorded_bans_are_kept`]).
//! - `keepbans` sets no ban at once if a member other than the bot is there already whom the same ban keeps off: then the
//!   bot has asked for it when that member joined. It only kicks the person who joins, and looks at the first such member
//!   five seconds later, as `later` does below. If that member is still there by then, the bot sets the ban: somebody may
//!   have joined before the bot knew it.
//!
//! A command that lacks its nick, its text or a hostmask does nothing. Modes and kicks go into the mode queue, topics,
//! invitations and WHO into the server queue, and greetings into the help queue.
//!
//! When a minute begins:
//!
//! | Proc | Kind | What it requests |
//! |---|---|---|
//! | `expire` | `time`, `cron` | `MODE CHANNEL -b MASK`, and the deletion, of bans that have ended |
//!
//! - A ban has ended if its expiry is not 0, which means never, and is at most the second that the bot's clock shows
//!   ([`bans_end_at_their_second`]).
//! - The first of the bots that are operators of the ban's channel does both: a bot at whose nick the rank below is 0,
//!   where operators count.
//! - Any bot deletes a ban of all channels, and a ban that ended a day ago ([`LEFT_SECONDS`]). So the records also lose a
//!   ban of a channel on which no bot is an operator.
//! - A call requests at most eight things, for the first bans in the order of the records. The next call goes on.
//!
//! When somebody changes the modes of a channel. The flags in this table are those of members, and the caller needs none
//! ([`keeping_spares_operators`]):
//!
//! | Proc | Kind | Change | What it requests |
//! |---|---|---|---|
//! | `protectops` | `mode` | `-o NICK` | `MODE CHANNEL +o NICK`, if NICK is a member with `o` |
//! | `bitch` | `mode` | `+o NICK` | `MODE CHANNEL -o NICK`, if NICK is a member without `o` and `b` |
//! | `guard` | `mode` | `+b MASK` | `MODE CHANNEL -b MASK`, if MASK matches the bot, or a member with `o` or `f` |
//! | `enforcebans` | `mode` | `+b MASK` | `KICK CHANNEL NICK :banned`, for members without `o` and `f` whom MASK matches |
//! | `keepmodes` | `mode` | any whose reverse has no argument | the reverse, as `MODE CHANNEL +n` for `-n`, or `-l` for `+l` |
//! | `keepmodes` | `mode` | `+k KEY` | `MODE CHANNEL -k KEY` |
//! | `dynamicbans` | `mode` | `+b MASK` by the bot | a call of `lift` after an hour, unless a ban of MASK is sticky |
//! | `keepbans` | `mode` | `-b MASK` | `MODE CHANNEL +b MASK`, if a ban of MASK in the userfile is sticky |
//!
//! - `protectops`, `bitch`, `guard`, `keepmodes` and `keepbans` do nothing for a change that the bot itself makes.
//! - `protectops`, `bitch` and `keepmodes` do nothing for a change by a master or a bot, as in Eggdrop. That is a caller
//!   who has one of the flags `m` and `n`, everywhere or on the channel, or the flag `b` everywhere. For such a caller,
//!   `guard` acts only if MASK matches the bot itself. So two bots don't undo each other's changes without end
//!   ([`keeping_answers_others`]).
//! - The mask of its bind says which changes `keepmodes` undoes: `#egg -n` keeps the mode `n` on #egg, and `#egg +k` keeps
//!   keys off it. The server announces which modes have an argument. `keepmodes` leaves alone lists, such as bans, and the
//!   marks of members, and it sets no key and no limit again ([`modes_are_set_back`]).
//! - `dynamicbans` requests nothing before the bot's clock shows a second. The records keep the ban, so the bot sets it
//!   again when somebody joins whom it matches ([`dynamic_bans_are_the_bots_own`]).
//! - `bitch` does nothing if a server gives op. `protectops`, `guard` and `keepmodes` also undo what a server does.
//! - `protectops` and `bitch` do nothing if NICK is the bot, and `protectops` does nothing if NICK is the caller.
//! - `bitch` also takes op from members whom the userfile does not know. It leaves op to members who have the flag `b`
//!   everywhere.
//! - `enforcebans` never kicks the bot itself. It kicks the first eight such members, in the order in which they came,
//!   also for a ban of the bot's own.
//! - `guard` and `enforcebans` do nothing if MASK is no hostmask.
//! - `keepbans` sets the first sticky ban again that is of the channel or of all channels, has not ended, and has this
//!   mask. It does so whoever else removes the mask ([`recorded_bans_are_kept`]).
//! - The first four look up a member by the account that the server has sent, if a user has a hostmask of it, and
//!   otherwise by the host. A member whose host the bot does not know yet is a stranger to it. So bind `opall` to joins too: it asks for the hosts when the bot itself joins.
//!
//! When the bot is no operator of a channel, and between bots:
//!
//! | Proc | Kind | When | What it requests |
//! |---|---|---|---|
//! | `cycle` | `part`, `sign`, `kick` | everybody else has left | `PART CHANNEL` and `JOIN CHANNEL` |
//! | `needop` | `join` | the bot itself joins | a call of `needop` after ten seconds, with the text CHANNEL |
//! | `needop` | `mode` | `-o` of the bot; `+o` of another one | `needop CHANNEL NICK` to the hub, with the bot's own nick |
//! | `needop` | timers | the bot is on the text's CHANNEL | the same |
//! | `needop` | `time`, `cron` | | the same for the first eight channels |
//! | `giveop` | `bot` | the text is WORD CHANNEL NICK | a look for `MODE CHANNEL +o NICK` after a second |
//! | `needin` | `raw` | a server refuses the bot's JOIN, by 471, 473, 474 or 475 | `needin CHANNEL NICK` to the hub, with the bot's own nick |
//! | `letin` | `bot` | the text is WORD CHANNEL NICK | `INVITE NICK CHANNEL` |
//!
//! - `cycle` does nothing if the bot is an operator ([`cycles_leave_nobody_behind`]). It leaves alone channels that have no
//!   operators, whose names begin with `+`, and those that nobody can make again, whose names begin with `!`.
//! - `needop` asks nothing if the bot is an operator, unless somebody takes op from it. At the hub it reports S7 (there
//!   is no bot to ask).
//! - `giveop` gives op only if the bot is an operator, and NICK is a member with the flag `b` everywhere and one of `o`,
//!   `m` and `n` ([`bots_give_op_to_known_bots`]). Bind it to the word `needop` at the hub.
//! - `giveop` gives op by a call of `later` after a second, since a leaf may ask twice: for each of two people who get op by
//!   one MODE, or when a minute begins just as its own look is due. The second look finds that the leaf has op.
//! - `needin` does nothing for any other line ([`bots_ask_to_be_let_in`]). At the hub it reports S7, as `needop` does.
//! - `letin` invites only if the bot is an operator, and NICK is no member of the channel ([`bots_invite_who_is_named`]).
//!   Nobody who is not there has a host that the bot knows, so it invites whatever nick a bot of the net names. Bind it to
//!   the word `needin` at the hub. An invitation lets the bot in where only the invited are, or where it is banned, on
//!   networks on which it does so.
//!
//! For lines of the server, and for those that the bot's own process puts in:
//!
//! | Proc | Kind | Line | What it requests |
//! |---|---|---|---|
//! | `ctcp` | `raw` | `PRIVMSG BOT :\x01VERSION\x01` | `NOTICE NICK :\x01VERSION eggnet\x01` |
//! | `ctcp` | `raw` | the same with `PING ARGUMENT` | ARGUMENT given back, if it has at most [`MAX_PING`] bytes |
//! | `ctcp` | `raw` | the same with `TIME` | the time of the day in UTC, as `TIME 01:46:40 UTC` |
//! | `kickfloods` | `raw` | `FLOOD USER@HOST CHANNEL :KIND` | `KICK CHANNEL NICK :flood of KIND`, for members of this address without `o` and `f` |
//! | `kickfloods` | `raw` | the same with the KIND `joins` | `MODE CHANNEL +b *!USER@HOST`, and then these kicks |
//! | `kickfloods` | `raw` | `FLOOD USER@HOST * :nick changes` | these kicks on all channels of the bot |
//!
//! - These are requests of the Client-To-Client Protocol, which call no other bind. NICK is the person who sends the line.
//!   `ctcp` answers 0, so the bot takes the line as any other.
//! - `ctcp` does nothing for a line to a channel, a NOTICE or a server ([`requests_are_to_the_bot`]), and nothing for `TIME`
//!   before the bot's clock shows a second.
//! - The process puts in a line FLOOD when somebody passes a limit of floods. No server sends such a line. USER@HOST is in
//!   the lower case of ASCII, and `kickfloods` compares the addresses of members so.
//! - `kickfloods` kicks the first eight such members, in the order in which they came, and never the bot itself. A ban
//!   leaves room for seven kicks. On all channels together it requests eight lines.
//! - `kickfloods` bans nobody if the bot, or a member with `o` or `f`, has the address. It bans also if nobody of the
//!   address is there any more. It spares these members as `enforcebans` does, by the account or the host
//!   ([`floods_spare_operators`]).
//! - `kickfloods` does nothing for any other KIND with `*`, and nothing on a channel on which the bot is no operator.
//!
//! In private messages, for callers who have one of the flags `m` and `n` everywhere. Anyone else gets a NOTICE that
//! says so, and no change ([`changes_want_a_master`]). An owner is a user with the flag `n`, and a master one with `m`. A
//! caller with `m` alone makes nobody an owner or a master, and changes none, not even the caller's own record. Nobody
//! deletes the only owner, or takes `n` from that one. Who tries gets a NOTICE that says so ([`changes_want_a_right`]):
//!
//! | Proc | Kind | Words | What it requests |
//! |---|---|---|---|
//! | `+user`, `-user` | `msg` | HANDLE | a new user, or the end of a user |
//! | `+host`, `-host` | `msg` | HANDLE MASK | a new hostmask of a user, or the end of one |
//! | `chattr` | `msg` | HANDLE FLAGS | these flags as all that a user has everywhere; `-` for none |
//! | `whois` | `msg` | HANDLE or NICK | no change: it says who a user is, or a member of a channel |
//! | `stick`, `unstick` | `msg` | MASK CHANNEL | that a ban is sticky, or not |
//! | `bans` | `msg` | NUMBER or none | no change: it says at most eight bans, and which are sticky |
//!
//! - `stick` and `unstick` mark the ban of this mask on the channel, or on all channels if no channel is given.
//! - `bans` starts at the ban of this number, counted from 1.
//! - `whois` says a user's flags everywhere, hostmasks and info line. If no user has the handle, it says which user the
//!   member of that nick is to the bot, and by what: by an account, or by the hostmask that decides
//!   ([`whois_names_whom_binds_know`]). If several channels have the member, it takes the first that shows the host.
//!
//! In private messages, for callers whom the userfile knows. Anyone else gets a NOTICE that says so. The only info line
//! that changes is the caller's own ([`info_is_of_who_asks`]):
//!
//! | Proc | Kind | Words | What it requests |
//! |---|---|---|---|
//! | `info` | `msg` | TEXT or none | this text as the caller's info line |
//!
//! - The text `none` empties the info line. Without a text, `info` says the caller's info line.
//!
//! For any caller. The answer names no channel that the caller is not on ([`answers_keep_channels_apart`]):
//!
//! | Proc | Kind | Words | What it requests |
//! |---|---|---|---|
//! | `seen` | `msg`, `pub` | NICK | no change: it says whether NICK is on a channel |
//!
//! - A word on a channel asks about that channel alone. A private message asks about the first channel with NICK on
//!   which the caller is too. If that finds nothing, `seen` says whether the userfile has a user of that name.
//!
//! Each of these private commands, and `seen`, answers with one NOTICE to the nick, in the help queue: how it is used
//! if a word is missing; why, in words and by its code, if the present records refuse the change; and otherwise that the
//! change is queued, since the hub decides. `+host` adds a warning for a mask that is likely to fit strangers
//! ([`loosemask`]). `bans` has a NOTICE for each ban.
//!
//! Each change that a proc requests is in the caller's name: the caller's claim, and the casemapping of the bot's server.
//! The claim is `$a:NAME` if a user has a hostmask of the account NAME, to which the caller is logged in, and otherwise
//! `nick!user@host`. So the hub judges the caller's right once more, by its own records, when the change reaches it. A master
//! who has been removed at the hub changes nothing from a bot that has not heard of it yet. Only `adduser` and `expire`
//! request changes in nobody's name: a new user, who has no flags and no hostmasks, and the deletion of a ban
//! ([`changes_are_in_the_callers_name`]).
//!
//! If several bots of a net are on one channel, all of them get the same calls there, and one acts
//! ([`one_bot_acts`]). A *hand* is a member whom the userfile knows with the flag `b` everywhere. The *rank* of a bot is
//! how many hands have a nick that comes before its own: nicks are compared in lower case by the server's casemapping,
//! byte by byte. For some procs only hands that are op count. A bot that is no hand itself has rank 0, so a lone bot
//! needs no record ([`bots_take_turns`]):
//!
//! | Procs | Hands that count | At rank 0 | At rank 1 and above |
//! |---|---|---|---|
//! | `op`, `deop`, `voice`, `devoice`, `autoop`, `kick`, `protectops`, `bitch`, `enforcebans`, `kickfloods`, `keepbans` for a join | operators | at once | a look |
//! | `opall` | all | at once | a look |
//! | `topic`, `invite`, `ban`, `unban`, `keepmodes`, `keepbans` for `-b` | operators | at once | nothing |
//! | `greet`, `echo`, and `seen` and `adduser` on a channel | all | at once | nothing |
//! | `guard` | operators, of these those that the ban hits if it hits any | at once | nothing |
//!
//! - A look is a call of `later` after five seconds for each rank, for each line that the bot would send at rank 0. A bot
//!   of rank 9 or above requests nothing.
//! - `later` is for the timers of these looks. Its text is ADDRESS LINE: the member's `nick!user@host`, and the line. It
//!   sends LINE if the bot is an operator of the line's channel, the member of this address is there, and the channel
//!   does not show that it is done: the member is no operator yet for `+o`, is one for `-o`, has no voice yet for `+v`,
//!   and has voice for `-v`. So a look does nothing after another bot has acted ([`looks_want_it_undone`]).
//! - `keepbans` makes two looks, one for each of its lines. The look for the ban does nothing if no member of this address
//!   is there, so a later bot sets the ban only if it also kicks that person. Beside a member whom the same ban keeps off it
//!   makes one look, for the KICK.
//! - Exactly one bot removes a ban by `guard` ([`one_bot_removes_a_ban`]). If the ban hits bots that are hands and
//!   operators, it is the first of these, and otherwise the first of all. The bot that sets the ban is left out of those
//!   that it hits.
//! - No look is made for a nick that is not on the channel, except for a caller who joins.
//! - A look sees the channel as it is then, and not what happened since. So a member who is kicked and joins again within
//!   the five seconds is kicked once more.
//! - The ban of `kickfloods` has no look, since it names no member. So only the bot of rank 0 sets it.
//! - `ban`, `unban`, `guard` and `keepbans` for `-b` have no looks, since a bot does not know the list of a channel's bans.
//!   So nobody sets a ban again that the first bot itself removes.
//! - A restart loses the timers of looks like all timers of a bot.
//! - A bot counts another one only if it knows that one's host. So bind `opall` to joins.
//! - A member with the flag `b` who is no bot of the net delays the bots whose nicks come later by five seconds. If its
//!   nick is the first, nobody greets or answers. So give that flag to bots of the net alone.
//! - The other procs are each bot's own: those of private messages, `lift`, `later`, `expire`, `dynamicbans`, `cycle`,
//!   `needop`, `giveop`, `needin`, `letin`, `ctcp`, `tick`, `tell`, `quiet` and `stop`.
//!
//! To try things out with, for any caller:
//!
//! | Proc | Kind | Words | What it requests |
//! |---|---|---|---|
//! | `quiet`, `stop` | any | | nothing |
//! | `adduser` | `msg`, `pub` | HANDLE | a new user, in nobody's name: the bind's flags say who may |
//! | `tick` | any | | a call of `quiet` after ten seconds |
//! | `tell` | `msg`, `pub` | TEXT | that the bot sends the text to the hub |
//! | `echo` | `msg`, `msgm`, `pub`, `pubm` | TEXT | that the bot repeats it, on the channel or to the nick |
//!
//! ```text
//! let store = store(alloc)?;                      // ProcStore<Ours, EggProc>
//! let view = View::new(&userfile, &channels, Some(1_000_000_000));
//! store.call(b"op", &call, &view)?.actions        // call: who has o says the word on #egg: MODE #egg +o nick
//! ```
#![tactic(auto)]

mod actions;
mod args;
mod askers;
mod bans;
mod basics;
mod body;
mod channel;
mod channel_laws;
mod ctcp;
mod cycling;
mod duties;
mod dynamic;
mod effects;
mod ends;
mod entries;
mod everyone;
mod floods;
mod full_store;
mod guards;
mod hands;
mod infos;
mod keeping;
mod laws;
mod lines;
mod looks;
mod marks;
mod modes;
mod needs;
mod orders;
mod outcomes;
mod pairs;
mod people;
mod proc_name;
mod promise;
mod recorded;
mod rights;
mod turn_laws;
mod turns;
mod whereabouts;
mod whois;

pub use crate::bans::UTIMER_MINUTES;
pub use crate::body::EggProc;
pub use crate::channel_laws::{
    bots_ask_to_be_let_in, bots_give_op_to_known_bots, bots_invite_who_is_named,
    cycles_leave_nobody_behind, dynamic_bans_are_the_bots_own, floods_spare_operators,
    modes_are_set_back, recorded_bans_are_kept, requests_are_to_the_bot,
};
pub use crate::ctcp::MAX_PING;
pub use crate::duties::Duty;
pub use crate::dynamic::DYNAMIC_SECONDS;
pub use crate::effects::LineEffect;
pub use crate::ends::LEFT_SECONDS;
pub use crate::full_store::store;
pub use crate::laws::{
    answers_keep_channels_apart, bans_end_at_their_second, changes_are_in_the_callers_name,
    changes_want_a_master, changes_want_a_right, commands_want_an_operator, commands_want_flags,
    greetings_want_an_info, info_is_of_who_asks, keeping_answers_others, keeping_spares_operators,
    whois_names_whom_binds_know,
};
pub use crate::looks::{LOOK_SECONDS, MAX_TURN};
pub use crate::needs::{ASK_SECONDS, GIVE_SECONDS};
pub use crate::orders::Order;
pub use crate::proc_name::{EVERY, PROC_COUNT, ProcName};
pub use crate::promise::Ours;
pub use crate::rights::{AUTO_OP, AUTO_VOICE, BOT, FRIEND, MASTER, OP, OWNER, Requester, VOICE};
pub use crate::turn_laws::{
    a_lone_bot_acts, bots_take_turns, looks_read_their_line, looks_want_it_undone, one_bot_acts,
    one_bot_is_first, one_bot_removes_a_ban, strangers_change_no_rank,
};
