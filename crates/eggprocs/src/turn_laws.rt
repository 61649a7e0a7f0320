// Laws of the bots that share a channel: which one acts, and what the others do.
ghost use Rattle.std.specs.Prelude.{Bool, codes};
ghost use Rattle.eggprocs.specs.declared.effects.LineEffect.TheVariants as effect;
ghost use Rattle.eggprocs.specs.declared.proc_name.ProcName.{ProcName};
ghost use Rattle.eggprocs.specs.declared.proc_name.ProcName.TheVariants as which;
ghost use Rattle.eggprocs.specs.Laws.{DoesOnly};
ghost use Rattle.eggprocs.specs.TurnLaws.{RanksRise, RanksDiffer, SomeoneIsFirst, LoneIsFirst, UnknownIsFirst, StrangersCountNot};
ghost use Rattle.eggprocs.specs.TurnLaws.{OneActs, ActsAtOnce, OnlyLooks, LeavesItToTheFirst};
ghost use Rattle.eggprocs.specs.TurnLaws.{OneRemoves, SomeoneRemoves, RemovesBansOnItself, LeavesBansToTheHit, LeavesOthersBansToTheFirst};
ghost use Rattle.eggprocs.specs.TurnLaws.{WantsTheBanned, WantsSomebody, WantsTheSamePerson, WantsItUndone, WantsOp, is_own_line, ReadsModes, ReadsKicks};

/// A law; calling it does nothing. Two bots may see the same of a channel: equal records, the same casemapping of the
/// server, and the same members with the same marks and addresses, in whatever order. If both are hands and their nicks
/// differ by that casemapping, their ranks differ too, and the one whose nick comes first has the lower rank. So no two
/// bots act at once, and no two look at one second. This holds whether only operators count or all do. Of two such bots,
/// one does nothing but wait, whatever both answer to a call that all bots on a channel get.
pub fn one_bot_acts()
    ensures rise { (needs_op : Bool) → RanksRise needs_op }
    ensures differ { (needs_op : Bool) → RanksDiffer needs_op }
    ensures one { (proc : ProcName) → OneActs proc }
{}

/// A law; calling it does nothing. If a bot is a hand on a channel, some hand there has rank 0 and acts at once.
pub fn one_bot_is_first()
    ensures first { (needs_op : Bool) → SomeoneIsFirst needs_op }
{}

/// A law; calling it does nothing. A bot has rank 0 if no other member of the channel is a hand, and also if it is no
/// hand itself, such as a bot that no record names.
pub fn a_lone_bot_acts()
    ensures lone { (needs_op : Bool) → LoneIsFirst needs_op }
    ensures unknown { (needs_op : Bool) → UnknownIsFirst needs_op }
{}

/// A law; calling it does nothing. Another member whom the userfile does not know with the flag `b` everywhere changes
/// no rank, whether that one has op or not.
pub fn strangers_change_no_rank()
    ensures strangers { (needs_op : Bool) → StrangersCountNot needs_op }
{}

/// A law; calling it does nothing. This holds for any answer that [`Ours`](crate::Ours) allows, whatever body a store
/// has:
///
/// - At its turn 0 each proc requests what it would request if the bot were alone.
/// - At a later turn it requests nothing but calls of `later`, five seconds later for each turn.
/// - What people read is said at turn 0 alone, and topics, invitations, bans and the modes of `keepmodes` are the first
///   bot's alone: at a later turn these procs request nothing.
pub fn bots_take_turns()
    ensures at_once { (proc : ProcName) → ActsAtOnce proc }
    ensures later { (proc : ProcName) → OnlyLooks proc }
    ensures greet { LeavesItToTheFirst which.Greet }
    ensures seen { LeavesItToTheFirst which.Seen }
    ensures echo { LeavesItToTheFirst which.Echo }
    ensures adduser { LeavesItToTheFirst which.AddUser }
    ensures topic { LeavesItToTheFirst which.Topic }
    ensures invite { LeavesItToTheFirst which.Invite }
    ensures ban { LeavesItToTheFirst which.Ban }
    ensures unban { LeavesItToTheFirst which.Unban }
    ensures keepmodes { LeavesItToTheFirst which.KeepModes }
{}

/// A law; calling it does nothing. Exactly one bot removes a ban by `guard`. The bots of this law are hands that are op:
///
/// - Of two such bots that see the same and have different nicks, one does nothing, whatever both answer.
/// - There is a bot that goes first: among those that the ban hits if it hits any, and otherwise among all.
/// - A bot that the ban hits removes it, whoever else sets it, if no other such bot that it hits comes before.
/// - A bot that the ban does not hit does nothing if the ban hits such a bot, or if such a bot comes before.
///
/// The bot that sets the ban does not count among those that it hits. A bot that is no hand removes the ban by itself.
pub fn one_bot_removes_a_ban()
    ensures one { OneRemoves (codes "guard") }
    ensures first { SomeoneRemoves }
    ensures itself { RemovesBansOnItself (codes "guard") }
    ensures hit { LeavesBansToTheHit (codes "guard") }
    ensures others { LeavesOthersBansToTheFirst (codes "guard") }
{}

/// A law; calling it does nothing. `later` sends the line of its look, and does nothing else. It does nothing if the bot
/// is no operator of the line's channel, if nobody of the nick is there, if the member of that nick has another address,
/// or if that member shows that the line has no more to do. A line that sets a ban names no nick: `later` does nothing for
/// it if nobody of the look's address is there.
pub fn looks_want_it_undone()
    ensures line { DoesOnly is_own_line (codes "later") }
    ensures op { WantsOp (codes "later") }
    ensures banned { WantsTheBanned (codes "later") }
    ensures somebody { WantsSomebody (codes "later") }
    ensures same_person { WantsTheSamePerson (codes "later") }
    ensures undone { WantsItUndone (codes "later") }
{}

/// A law; calling it does nothing. `later` reads in a line what the line does, on which channel and to which nick or mask,
/// if these are words without spaces.
pub fn looks_read_their_line()
    ensures give_op { ReadsModes (codes "+o") effect.GiveOp }
    ensures take_op { ReadsModes (codes "-o") effect.TakeOp }
    ensures give_voice { ReadsModes (codes "+v") effect.GiveVoice }
    ensures take_voice { ReadsModes (codes "-v") effect.TakeVoice }
    ensures ban { ReadsModes (codes "+b") effect.Ban }
    ensures kick { ReadsKicks }
{}
