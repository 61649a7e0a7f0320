// The laws of opening a bot's disks again.
ghost use Rattle.bytetext.specs.declared.failure.Failure.TheVariants.{Refused};
ghost use Rattle.bytejournal.specs.declared.fault.JournalFault.TheVariants.{NotAJournal};
ghost use Rattle.std.specs.Prelude.{List, ℕ};
ghost use Rattle.sharelink.specs.BotLinks.{BotEnd, AreOf};
ghost use Rattle.sharelink.specs.BotOpening.{FindsNone, AreBots};

use disks::Disk;

/// The law of a bot whose process ended between two calls, or during a call of the open bot. The function does nothing:
/// its clause holds for any disks.
///
/// The clauses `left` of [`know_disks`](crate::BotLink::know_disks) and [`into_disks`](crate::BotLink::into_disks), and
/// `row` of each call that uses a disk, say that whatever a crash leaves is the bot's.
pub fn law_of_left_disks<D: Disk>()
    // Opening the disks that a bot left, as that bot, never returns `NotAJournal`.
    ensures { (link : BotEnd) (first second one other : D) → AreOf link (D.state first).seen (D.state second).seen
        → FindsNone D.state link.number link.leaves first second (Refused NotAJournal) one other → ⊥ }
{}

/// The law of a bot whose process ended while it was opened. The function does nothing: its clauses hold for any disks.
///
/// An opening rewrites a journal of an older layout. The clause `bots` of [`open`](crate::BotLink::open) says that what
/// a crash leaves at any moment of it is a journal of the bot again. So this holds after any number of openings that
/// did not end.
pub fn law_of_unopened_disks<D: Disk>()
    // What a bot left is a journal of the bot.
    ensures left { (link : BotEnd) (x y : List ℕ) → AreOf link x y → AreBots link.number link.leaves x y }
    // Opening disks that hold a journal of a bot, as that bot, never returns `NotAJournal`.
    ensures never_refused { (number leaves : ℕ) (first second one other : D)
        → AreBots number leaves (D.state first).seen (D.state second).seen
        → FindsNone D.state number leaves first second (Refused NotAJournal) one other → ⊥ }
{}
