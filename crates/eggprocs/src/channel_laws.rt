// Laws of the procs that keep a channel by themselves, and of those that answer other bots and programs.
ghost use Rattle.std.specs.Prelude.{codes};
ghost use Rattle.eggprocs.specs.Laws.{DoesOnly, IsOnlyByOps, IsOnlyForOthers};
ghost use Rattle.eggprocs.specs.ChannelLaws.{is_reverse, is_gift, GivesOpLater, LeavesNobodyBehind, IsOnlyWithoutOp, IsOnlyForOwn, SparesSticky, IsOnlyToBot, IsOnlyForTexts};
ghost use Rattle.eggprocs.specs.ChannelLaws.{is_against_flood, LeavesOtherFloods, LooksAfterFloods, BansJoiners, InvitesWhoIsNamed, is_entry_text, IsOnlyForRefusals};
ghost use Rattle.eggprocs.specs.ChannelLaws.{is_kept, SparesUnbanned, KeepsOff, KeepsOffBeside, SetsAgain, LeavesRemovalsToTheFirst};

/// A law; calling it does nothing. `keepmodes` does nothing but undo the change that it is called for, by what the server
/// announces. It sets the reverse of a mode whose reverse has no argument: of a mode that never has one, and of one that
/// has it only when it is set, as a limit `+l`. It clears a key `+k` by the key that the change sets. So it undoes no ban,
/// no other entry of a list, and no mark of a member, and sets no limit and no key again.
pub fn modes_are_set_back()
    ensures keepmodes { DoesOnly is_reverse (codes "keepmodes") }
{}

/// A law; calling it does nothing. `cycle` leaves no channel on which anybody else is left, and none on which the bot is
/// an operator.
pub fn cycles_leave_nobody_behind()
    ensures alone { LeavesNobodyBehind (codes "cycle") }
    ensures without_op { IsOnlyWithoutOp (codes "cycle") }
{}

/// A law; calling it does nothing. `dynamicbans` does nothing for a ban that anybody but the bot sets, and nothing for one
/// whose mask is that of a sticky ban in the records which has not ended.
pub fn dynamic_bans_are_the_bots_own()
    ensures own { IsOnlyForOwn (codes "dynamicbans") }
    ensures sticky { SparesSticky (codes "dynamicbans") }
{}

/// A law; calling it does nothing. `keepbans` keeps the bans of the records on the channels:
///
/// - When a person joins, it does nothing but set a ban of the records on the channel and kick that person, for a ban that
///   is of this channel or of all, has not ended, and matches the person's `nick!user@host`. The kick's reason is the
///   ban's comment. It does nothing for a person whom no such ban matches.
/// - When a mode removes a ban, it does nothing but set a sticky ban of the records again, which is of this channel or of
///   all, has not ended, and has the same mask.
/// - It does nothing for what the bot itself does, and nothing on a channel on which the bot is no operator.
/// - If the bot comes first, it bans and kicks for the first such ban, and sets the first such ban again.
/// - If another member is there whom that ban keeps off, the ban has been asked for when that one joined. So the bot does
///   not set it at once. It kicks the person who joins all the same, and looks five seconds later at the first such member.
///   That look sets the ban if this member is still there, as one may be who joined before the bot knew the ban.
/// - If another bot comes first, it does nothing when a mode removes a ban, and looks later when a person joins
///   ([`bots_take_turns`](crate::bots_take_turns)).
pub fn recorded_bans_are_kept()
    ensures keepbans { DoesOnly is_kept (codes "keepbans") }
    ensures unbanned { SparesUnbanned (codes "keepbans") }
    ensures others { IsOnlyForOthers (codes "keepbans") }
    ensures with_op { IsOnlyByOps (codes "keepbans") }
    ensures kept_off { KeepsOff (codes "keepbans") }
    ensures beside { KeepsOffBeside (codes "keepbans") }
    ensures again { SetsAgain (codes "keepbans") }
    ensures removals { LeavesRemovalsToTheFirst (codes "keepbans") }
{}

/// A law; calling it does nothing. `giveop` does nothing but give op to the member whom the text names, and only if the
/// records know that member as a bot and as an operator: the member has the flag `b` everywhere, and one of `o`, `m` and
/// `n` everywhere or on the channel. It gives op by a look a second later, so once if several texts ask for it.
pub fn bots_give_op_to_known_bots()
    ensures giveop { DoesOnly is_gift (codes "giveop") }
    ensures later { GivesOpLater (codes "giveop") }
{}

/// A law; calling it does nothing. `kickfloods` kicks who floods a channel, and nobody else:
///
/// - It kicks only members whose `user@host` is that of the line, in the lower case of ASCII, and neither the bot nor a
///   member who has one of the flags `o`, `m`, `n` and `f`, everywhere or on that channel.
/// - It bans only the address of the line, only for a flood of joins, and only if no such member has that address.
/// - It does both only on channels of the flood on which the bot is an operator: on the channel that the line names, or,
///   for a change of the nick, on each channel of the bot. It does nothing for any other flood on no channel.
/// - If the bot comes first, it bans before it kicks. If another bot comes first, it only looks later
///   ([`bots_take_turns`](crate::bots_take_turns)).
///
/// It does nothing else.
pub fn floods_spare_operators()
    ensures kickfloods { DoesOnly is_against_flood (codes "kickfloods") }
    ensures nowhere { LeavesOtherFloods (codes "kickfloods") }
    ensures later { LooksAfterFloods (codes "kickfloods") }
    ensures joins { BansJoiners (codes "kickfloods") }
{}

/// A law; calling it does nothing. `letin` requests nothing but one invitation: of the nick and to the channel that the
/// text of the other bot names, where this bot is an operator and no member has that nick.
pub fn bots_invite_who_is_named()
    ensures letin { InvitesWhoIsNamed (codes "letin") }
{}

/// A law; calling it does nothing. `needin` requests nothing but a text to the hub, which names the channel of the line
/// and the bot's own nick. It does nothing for a line that refuses no JOIN: for any but 471, 473, 474 and 475.
pub fn bots_ask_to_be_let_in()
    ensures needin { DoesOnly is_entry_text (codes "needin") }
    ensures refused { IsOnlyForRefusals (codes "needin") }
{}

/// A law; calling it does nothing. `ctcp` does nothing for a line to a channel or to another nick, and nothing for a line
/// that is no PRIVMSG. So no two programs answer each other's answers without end.
pub fn requests_are_to_the_bot()
    ensures own { IsOnlyToBot (codes "ctcp") }
    ensures texts { IsOnlyForTexts (codes "ctcp") }
{}
