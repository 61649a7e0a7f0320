// The laws of the deeds of bots in processes of their own.
ghost use Rattle.std.specs.Prelude.{◌≡◌, ◌⊎◌, ◌<◌, ◌≤◌, ◌+◌, ◌++◌, ℕ, suc, true, List, ◌∷◌, length, slice_get, Some, Ok};
ghost use Rattle.protocol.specs.History.{History, start, records_of};
ghost use Rattle.protocol.specs.Rights.{EachIsAllowed, OnlyOwnersChangeRanks, NobodyClimbs, NobodyBecomesOwner};
ghost use Rattle.disks.specs.State.{may_leave, moment, left_since};
ghost use Rattle.botjournal.specs.Ledger.{Device};
ghost use Rattle.protocol.specs.Ends.{End};
ghost use Rattle.sharelink.specs.BotLinks.{BotEnd, MayLeave};
ghost use Rattle.sharelink.specs.Telling.{end_last_request, end_last_reply};
ghost use Rattle.botcore.specs.declared.config.Config.{Config};
ghost use Rattle.botcore.specs.Bots.{Bot};
ghost use Rattle.botcore.specs.declared.event.BotEvent.{BotEvent};
ghost use Rattle.botcore.specs.declared.report.Report.{Report};
ghost use Rattle.botcore.specs.Making.{Makes, MakesAfter, Finds, LeavesFound};
ghost use Rattle.botcore.specs.Steps.{TakesStep};
ghost use Rattle.watching.specs.Openings.{IsOpened, IsUnopened, CrashesIn};
ghost use Rattle.botworld.specs.Calling.{Calling, IsAlike, IsAlikeButChannels, IgnoresChannels};
ghost use Rattle.processes.specs.Deeds.{Process, Net, Step, Deed, Made, Replaced, Runs, Nothing, Telling, LeavesIn, IsHubEnd, Happens, Run, IsNew, IsFirst, net_after};
ghost use Rattle.processes.specs.Deeds.{Stays, shown_version, shown_records};
ghost use Rattle.processes.specs.Standing.{Stands, Reaches, Leads};
ghost use Rattle.processes.specs.Turning.{AreTold, AreDeeds};
ghost use Rattle.turns.specs.Turns.{Steps};
ghost use Rattle.processes.specs.Promises.{Once, BeginsAnew, calling_of};

use disks::Disk;
use procs::Promise;

/// States what holds of all deeds of bots in processes of their own, over procs that keep the promise `P` and disks of
/// the type `D`. The call does nothing.
pub fn laws_of_processes<P: Promise, D: Disk>()
    // The first moment stands for the start of history.
    ensures begins { (count : ℕ) (w : Net) → IsFirst count w → Stands w (start count) }
    // Deeds lead to a moment into which history has grown. Only for leaves that they replace is anything taken back.
    ensures goes { (w : Net) (h : History) (deeds : List Deed)
        → Stands w h → Run P.promised w deeds → Reaches deeds h (net_after w deeds) }
    // A bot at version v shows the records that the first v changes make that the hub has accepted.
    ensures at_version { (w : Net) (h : History) → Stands w h → (bot version : ℕ) → shown_version w bot ≡ Some version
        → shown_records w bot ≡ Some (records_of h.hub.kept.accepted version) }
    // Each change that the hub has accepted and a person asked for was that person's right, by the records just before it.
    // A change for which somebody asked who was no owner just before it left the owners and masters as they were.
    ensures allowed { (w : Net) (h : History) → Stands w h → EachIsAllowed h.hub.kept.accepted }
    ensures ranks { (w : Net) (h : History) → Stands w h → OnlyOwnersChangeRanks h.hub.kept.accepted }
    // Nobody climbs: from any version to any later one the owners and masters are the same, with their hostmasks and flags,
    // if only persons asked whom no owner's hostmask matched at the first. Nor is one of them an owner then.
    ensures nobody_climbs { (w : Net) (h : History) → Stands w h → NobodyClimbs h.hub.kept.accepted }
    ensures nobody_becomes_owner { (w : Net) (h : History) → Stands w h → NobodyBecomesOwner h.hub.kept.accepted }
    // At any two moments, bots at one version hold the same records.
    ensures same_records { (count : ℕ) (w : Net) (first more : List Deed)
        → IsFirst count w → Run P.promised w (first ++ more) → (one other version : ℕ)
        → shown_version (net_after w first) one ≡ Some version
        → shown_version (net_after w (first ++ more)) other ≡ Some version
        → shown_records (net_after w first) one ≡ shown_records (net_after w (first ++ more)) other }
    // No version goes back, even if the bot's process died in between and another process opened the bot. Only a leaf that
    // is replaced begins again.
    ensures never_back { (count : ℕ) (w : Net) (first more : List Deed)
        → IsFirst count w → Run P.promised w (first ++ more) → (bot before after : ℕ) → Stays bot more
        → shown_version (net_after w first) bot ≡ Some before
        → shown_version (net_after w (first ++ more)) bot ≡ Some after → before ≤ after }
    // The list of accepted changes grows as the hub's step reports, and at no other step. Another deed adds at most the
    // change that was in doubt when the hub's process ended.
    ensures grows_as_told { (w : Net) (h : History) (deed : Deed) → Stands w h → Happens P.promised w deed → Leads h w deed }
    // A request is accepted at most once, and is reported so.
    ensures once { (count : ℕ) (w : Net) (deeds : List Deed)
        → IsFirst count w → Run P.promised w deeds → Once (net_after w deeds) }
    // A leaf that was replaced never takes a reply from before as one to a request of its own. Its requests have higher
    // numbers than all that the hub had replied to.
    ensures begins_anew { (count : ℕ) (w : Net) (first more : List Deed) (leaf : ℕ) (new : Bot)
        → IsFirst count w → Run P.promised w (first ++ Replaced leaf new ∷ more) → Stays leaf more
        → BeginsAnew (net_after w first) (net_after w (first ++ Replaced leaf new ∷ more)) leaf (end_last_request new.link.end) }
    // Bots that are alike call the same procs, at any two moments, over stores of the same names.
    ensures same_calls { (count : ℕ) (w : Net) (deeds : List Deed) → IsFirst count w → Run P.promised w deeds
        → (i j one other : ℕ) (s t : Step) (a b : Calling)
        → slice_get deeds i ≡ Some (Made one s) → slice_get deeds j ≡ Some (Made other t) → s.names ≡ t.names
        → calling_of s ≡ Some a → calling_of t ≡ Some b → IsAlike a b → a.calls ≡ b.calls }
    // So do bots that are alike except for their channels, on servers that compare names alike, if the promised codes
    // ignore the channels.
    ensures same_calls_ignoring_channels { IgnoresChannels P.promised → (count : ℕ) (w : Net) (deeds : List Deed)
        → IsFirst count w → Run P.promised w deeds
        → (i j one other : ℕ) (s t : Step) (a b : Calling)
        → slice_get deeds i ≡ Some (Made one s) → slice_get deeds j ≡ Some (Made other t) → s.names ≡ t.names
        → calling_of s ≡ Some a → calling_of t ≡ Some b → IsAlikeButChannels a b → a.calls ≡ b.calls }
    // A bot that `Bot::create` made is one of the first moment.
    ensures made { (config : Config) (first second : D) (bot : Bot) → Makes D.state config first second (Ok bot)
        → IsNew config.leaves config.number (Runs bot) }
    // A bot that `Bot::create_after` made replaces a leaf, if it has the leaf's number, and the number of the leaf's last
    // request that the hub has replied to: while the hub runs, what `Bot::last_reply` returns.
    ensures replaced { (w : Net) (hub : Process) (end : End) (config : Config) (first second : D) (bot : Bot)
        → slice_get w.processes 0 ≡ Some hub → IsHubEnd (length w.processes) hub end
        → 0 < config.number → config.leaves + 1 ≡ length w.processes
        → MakesAfter D.state config first second (end_last_reply end config.number) (Ok bot)
        → Happens P.promised w (Replaced config.number bot) }
    // The steps of a turn are deeds, if reports have sent its packets. `take_turn` of the crate `turns` says that it makes
    // such steps.
    ensures turned { (w : Net) (bot : ℕ) (names : List (List ℕ)) (old new : Bot) (events : List BotEvent) (reports : List Report)
        → slice_get w.processes bot ≡ Some (Runs old) → AreTold w.packets bot events
        → Steps P.promised names old events reports new → AreDeeds P.promised w bot names events reports new }
    // A bot that `Bot::open` found is opened from what its disks held, or from the same rewritten in the present
    // layout.
    ensures opened { (config : Config) (first second : D) (bot : Bot) → Finds D.state config first second (Ok bot)
        → IsOpened config.number (config.leaves + 1) (D.state first).seen (D.state second).seen bot }
    // A crash at any moment of `Bot::open` leaves on the disks what a process may leave that dies while it opens the
    // bot: `Bot::open` says of each state of the device during the call that it leaves what was found.
    ensures unopened { (config : Config) (first second : D) (now : Device) → LeavesFound D.state config first second now
        → (x y : List ℕ) → left_since now.first (moment (D.state first)) x → left_since now.second (moment (D.state second)) y
        → IsUnopened config.number (config.leaves + 1) (D.state first).seen (D.state second).seen x y }
    // A crash after `Bot::into_disks` leaves on the disks what a process leaves that dies outside a call.
    ensures stopped { (first second : D) (link : BotEnd) → MayLeave (D.state first) (D.state second) link → (x y : List ℕ)
        → may_leave (D.state first) x → may_leave (D.state second) y → LeavesIn Nothing link x y }
    // A crash at any moment of a step leaves on the bot's disks what a process may leave that dies outside a call, or
    // in that step. `Bot::know_disks` says that a crash before the step leaves the bot's journal.
    ensures died { (names : List (List ℕ)) (event : BotEvent) (was after : Bot) (report : Report) (x y : List ℕ)
        → MayLeave was.link.device.first was.link.device.second was.link
        → TakesStep P.promised names was event report after → CrashesIn was.link after.link x y
        → LeavesIn Nothing was.link x y ⊎ LeavesIn (Telling event) was.link x y }
{}
