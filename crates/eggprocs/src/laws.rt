// Laws of the procs: when nothing is done, and for whose call.
ghost use Rattle.std.specs.Prelude.{ℕ, List, codes, ◌∷◌, []};
ghost use Rattle.eggprocs.specs.Laws.{IsOnlyForOneOf, IsOnlyByOps, IsOnlyForMasters};
ghost use Rattle.eggprocs.specs.Laws.{NamesWhomBindsKnow, NamesTheDecider, LeavesStrangers, TellsOnlyMasters};
ghost use Rattle.eggprocs.specs.Laws.{AsksOnly, IsInCallersName, IsNamedOrGivesNothing, IsTaken, IsAllowed};
ghost use Rattle.eggprocs.specs.Laws.{ChangesOwnInfo, IsOnlyForKnown, IsOnlyWithInfo, GivesWhatIsDue, KeepsChannelsApart};
ghost use Rattle.eggprocs.specs.Laws.{IsOnlyForOthers, DoesOnly, is_op_of_known, is_deop_of_unknown, is_end_of_ban, is_kick_of_banned};
ghost use Rattle.eggprocs.specs.Laws.{LeavesTrusted, LeavesServers, DoesOnlyForTrusted, is_end_of_ban_on_bot};
ghost use Rattle.eggprocs.specs.Laws.{deletes_no_lasting, is_end_of_ended};

use crate::rights::{AUTO_OP, AUTO_VOICE, MASTER, OP, OWNER, VOICE};

/// A law; calling it does nothing. The commands of a channel's operators do nothing for a caller who has none of the
/// flags `o`, `m` and `n`, neither everywhere nor on the channel. `voice` and `devoice` require one of these and `v`, and
/// `autoop` one of `a` and `g`. `opall`, except when the bot itself joins, gives op to members who have the flag `a` and
/// voice to those who have `g`, and does nothing else. If another bot comes first, it only looks later for these modes.
/// This holds for any answer that [`Ours`](crate::Ours) allows, whatever body a store has.
pub fn commands_want_flags()
    ensures op { IsOnlyForOneOf (OP ∷ MASTER ∷ OWNER ∷ []) (codes "op") }
    ensures deop { IsOnlyForOneOf (OP ∷ MASTER ∷ OWNER ∷ []) (codes "deop") }
    ensures kick { IsOnlyForOneOf (OP ∷ MASTER ∷ OWNER ∷ []) (codes "kick") }
    ensures topic { IsOnlyForOneOf (OP ∷ MASTER ∷ OWNER ∷ []) (codes "topic") }
    ensures invite { IsOnlyForOneOf (OP ∷ MASTER ∷ OWNER ∷ []) (codes "invite") }
    ensures ban { IsOnlyForOneOf (OP ∷ MASTER ∷ OWNER ∷ []) (codes "ban") }
    ensures unban { IsOnlyForOneOf (OP ∷ MASTER ∷ OWNER ∷ []) (codes "unban") }
    ensures voice { IsOnlyForOneOf (OP ∷ MASTER ∷ OWNER ∷ VOICE ∷ []) (codes "voice") }
    ensures devoice { IsOnlyForOneOf (OP ∷ MASTER ∷ OWNER ∷ VOICE ∷ []) (codes "devoice") }
    ensures autoop { IsOnlyForOneOf (AUTO_OP ∷ AUTO_VOICE ∷ []) (codes "autoop") }
    ensures opall { GivesWhatIsDue (codes "opall") }
{}

/// A law; calling it does nothing. On a channel on which the bot itself is no operator, these procs do nothing.
pub fn commands_want_an_operator()
    ensures op { IsOnlyByOps (codes "op") }
    ensures deop { IsOnlyByOps (codes "deop") }
    ensures voice { IsOnlyByOps (codes "voice") }
    ensures devoice { IsOnlyByOps (codes "devoice") }
    ensures autoop { IsOnlyByOps (codes "autoop") }
    ensures kick { IsOnlyByOps (codes "kick") }
    ensures topic { IsOnlyByOps (codes "topic") }
    ensures invite { IsOnlyByOps (codes "invite") }
    ensures ban { IsOnlyByOps (codes "ban") }
    ensures unban { IsOnlyByOps (codes "unban") }
    ensures protectops { IsOnlyByOps (codes "protectops") }
    ensures bitch { IsOnlyByOps (codes "bitch") }
    ensures guard { IsOnlyByOps (codes "guard") }
    ensures enforcebans { IsOnlyByOps (codes "enforcebans") }
    ensures keepmodes { IsOnlyByOps (codes "keepmodes") }
    ensures dynamicbans { IsOnlyByOps (codes "dynamicbans") }
{}

/// A law; calling it does nothing. Flags count everywhere and on the channel.
///
/// - `protectops` gives op only to the member from whom somebody takes it, if that one has a flag of `o`, `m` and `n`.
/// - `bitch` takes op only from the member to whom somebody gives it, if that one has none of these flags and does not
///   have `b` everywhere.
/// - `guard` removes only the ban that somebody sets, if its mask matches the bot or a member with a flag of `o`, `m`,
///   `n` and `f`.
/// - `enforcebans` kicks only members whom the ban's mask matches, and neither the bot nor a member with one of these
///   four flags.
///
/// None of them does anything else. If another bot comes first, `protectops`, `bitch` and `enforcebans` look later for
/// the same lines, by calls of `later`, and do nothing now ([`bots_take_turns`](crate::bots_take_turns)).
pub fn keeping_spares_operators()
    ensures protectops { DoesOnly is_op_of_known (codes "protectops") }
    ensures bitch { DoesOnly is_deop_of_unknown (codes "bitch") }
    ensures guard { DoesOnly is_end_of_ban (codes "guard") }
    ensures enforcebans { DoesOnly is_kick_of_banned (codes "enforcebans") }
{}

/// A law; calling it does nothing. Some callers may change modes as they like:
///
/// - `protectops`, `bitch`, `guard` and `keepmodes` do nothing for a change that the bot itself makes, so that they
///   reverse nothing that its own procs do.
/// - `protectops`, `bitch` and `keepmodes` do nothing for a caller who has one of the flags `m` and `n`, everywhere or on the channel,
///   or `b` everywhere. So two bots don't undo each other's changes without end.
/// - For such a caller, `guard` removes only the ban that the caller sets, if its mask matches the bot itself.
/// - `bitch` does nothing for a change that a server makes.
pub fn keeping_answers_others()
    ensures protectops { IsOnlyForOthers (codes "protectops") }
    ensures bitch { IsOnlyForOthers (codes "bitch") }
    ensures guard { IsOnlyForOthers (codes "guard") }
    ensures keepmodes { IsOnlyForOthers (codes "keepmodes") }
    ensures protectops_trusted { LeavesTrusted (codes "protectops") }
    ensures bitch_trusted { LeavesTrusted (codes "bitch") }
    ensures keepmodes_trusted { LeavesTrusted (codes "keepmodes") }
    ensures guard_trusted { DoesOnlyForTrusted is_end_of_ban_on_bot (codes "guard") }
    ensures bitch_servers { LeavesServers (codes "bitch") }
{}

/// A law; calling it does nothing. The commands of masters request no change of the userfile for a caller who has
/// neither of the flags `m` and `n` everywhere.
pub fn changes_want_a_master()
    ensures plus_user { IsOnlyForMasters (codes "+user") }
    ensures minus_user { IsOnlyForMasters (codes "-user") }
    ensures plus_host { IsOnlyForMasters (codes "+host") }
    ensures minus_host { IsOnlyForMasters (codes "-host") }
    ensures chattr { IsOnlyForMasters (codes "chattr") }
    ensures whois { IsOnlyForMasters (codes "whois") }
    ensures stick { IsOnlyForMasters (codes "stick") }
    ensures unstick { IsOnlyForMasters (codes "unstick") }
    ensures bans { IsOnlyForMasters (codes "bans") }
{}

/// A law; calling it does nothing. Whom `whois` names, if a master asks for a nick that is no user's handle, and that a
/// member of one of the bot's channels has. An event by the member is one by the member's nick, from the address and under
/// the account that the bot sees.
///
/// - If binds know who an event by the member is by, `whois` names the handle whose flags the binds take, and by what it
///   is found: by the account, if a user has a hostmask of the account, and otherwise by a hostmask.
/// - The hostmask that it names decides: it is one of the user's, it matches, and no hostmask of anybody that matches has
///   more literals.
/// - If binds know nobody behind an event by the member, `whois` says so.
/// - It does so if the bot knows the member's host, or a user has a hostmask of the member's account.
/// - A caller who has neither of the flags `m` and `n` everywhere gets no answer but that the command is for masters.
pub fn whois_names_whom_binds_know()
    ensures known { NamesWhomBindsKnow (codes "whois") }
    ensures masks { NamesTheDecider }
    ensures strangers { LeavesStrangers (codes "whois") }
    ensures masters { TellsOnlyMasters (codes "whois") }
{}

/// A law; calling it does nothing. Each change that a proc requests is in the caller's name: it bears the caller's claim
/// and the casemapping of the bot's server, by which the bot also finds the caller's handle. The claim is `$a:NAME` if the
/// bot's channels show that the caller is logged in to the account NAME and a user has a hostmask of it, and otherwise the
/// caller's `nick!user@host` ([`procs::claim_by`]). So each userfile that the change reaches judges the caller's right by
/// its own records just before the change.
///
/// Two procs also request changes in nobody's name: `adduser`, of which the bind's flags say who may use it, adds a
/// user, who has neither flags nor hostmasks, and `expire` deletes bans. No proc requests anything else in nobody's
/// name. This holds for any answer that [`Ours`](crate::Ours) allows, whatever body a store has.
pub fn changes_are_in_the_callers_name()
    ensures plus_user { AsksOnly IsInCallersName (codes "+user") }
    ensures minus_user { AsksOnly IsInCallersName (codes "-user") }
    ensures plus_host { AsksOnly IsInCallersName (codes "+host") }
    ensures minus_host { AsksOnly IsInCallersName (codes "-host") }
    ensures chattr { AsksOnly IsInCallersName (codes "chattr") }
    ensures stick { AsksOnly IsInCallersName (codes "stick") }
    ensures unstick { AsksOnly IsInCallersName (codes "unstick") }
    ensures info { AsksOnly IsInCallersName (codes "info") }
    ensures ban { AsksOnly IsInCallersName (codes "ban") }
    ensures unban { AsksOnly IsInCallersName (codes "unban") }
    ensures all { (name : List ℕ) → AsksOnly IsNamedOrGivesNothing name }
{}

/// A law; calling it does nothing. The commands of masters and `info` request no change that the records of the bot
/// refuse, so none to which the caller has no right by them (see [`may`](userfile::Userfile::may)). A caller who does not
/// have the flag `n` everywhere can't make anybody an owner or a master by these procs, and can't change one. `ban` and
/// `unban` request no change to which the caller has no right, if the records know the caller under the call's handle.
pub fn changes_want_a_right()
    ensures plus_user { AsksOnly IsTaken (codes "+user") }
    ensures minus_user { AsksOnly IsTaken (codes "-user") }
    ensures plus_host { AsksOnly IsTaken (codes "+host") }
    ensures minus_host { AsksOnly IsTaken (codes "-host") }
    ensures chattr { AsksOnly IsTaken (codes "chattr") }
    ensures stick { AsksOnly IsTaken (codes "stick") }
    ensures unstick { AsksOnly IsTaken (codes "unstick") }
    ensures info { AsksOnly IsTaken (codes "info") }
    ensures ban { AsksOnly IsAllowed (codes "ban") }
    ensures unban { AsksOnly IsAllowed (codes "unban") }
{}

/// A law; calling it does nothing. `info` requests no change except of the caller's info line, and none if the userfile
/// does not know the caller.
pub fn info_is_of_who_asks()
    ensures own { ChangesOwnInfo (codes "info") }
    ensures known { IsOnlyForKnown (codes "info") }
{}

/// A law; calling it does nothing. `greet` does nothing for a caller without an info line, such as one whom the
/// userfile does not know.
pub fn greetings_want_an_info()
    ensures greet { IsOnlyWithInfo (codes "greet") }
{}

/// A law; calling it does nothing. A ban has ended if its expiry is not 0, which means never, and is at most the second
/// that the proc sees. `expire` does nothing but end bans of the records that have ended: it removes them from their
/// channels, and deletes them. `ban` deletes no ban but one that has ended.
pub fn bans_end_at_their_second()
    ensures expire { DoesOnly is_end_of_ended (codes "expire") }
    ensures ban { DoesOnly deletes_no_lasting (codes "ban") }
{}

/// A law; calling it does nothing. If the caller shares no channel with the nick in question, `seen` gives the same
/// answer wherever that nick is: on a channel, at each bot that answers there. A bot that leaves the answer to another one
/// gives none.
pub fn answers_keep_channels_apart()
    ensures seen { KeepsChannelsApart (codes "seen") }
{}
