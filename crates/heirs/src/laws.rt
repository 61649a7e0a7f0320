// The laws of an heir.
ghost use Rattle.std.specs.Prelude.{◌≡◌, ◌≤◌, ◌+◌, ◌++◌, ℕ, suc, List, ◌∷◌, length, take, slice_get, Some};
ghost use Rattle.userfile.specs.Records.{Records};
ghost use Rattle.botjournal.specs.Contents.{meaning};
ghost use Rattle.botjournal.specs.Ledger.{Device};
ghost use Rattle.protocol.specs.History.{History, changes_of};
ghost use Rattle.protocol.specs.Ends.{End, end_version, end_records};
ghost use Rattle.sharelink.specs.BotOpening.{IsKeptOf};
ghost use Rattle.botcore.specs.declared.config.Config.{Config};
ghost use Rattle.botcore.specs.Links.{link_version};
ghost use Rattle.botworld.specs.Calling.{Calling, IsAlike};
ghost use Rattle.processes.specs.Deeds.{Process, Ended, Net, Step, Deed, Made, Run, IsNew, Stays, shown_version, shown_records, net_after};
ghost use Rattle.processes.specs.Standing.{Stands};
ghost use Rattle.processes.specs.Promises.{Once, calling_of};
ghost use Rattle.heirs.specs.Beginnings.{heir_start};
ghost use Rattle.heirs.specs.Heirs.{IsHeir, IsHeirOf, CanShow, MeanHeir, net_over};
ghost use Rattle.heirs.specs.Descents.{net_at, Ancestor, Descends, AreAtLeast};
ghost use Rattle.heirs.specs.Examples.{CatchesUp};

use disks::MemDisk;
use processes::laws_of_processes;
use procs::Promise;

/// States what holds of a net that is an heir of another one, and of all that its bots do, over procs that keep the
/// promise `P`. The call does nothing.
pub fn laws_of_heirs<P: Promise>()
    // An heir of a bot at version v stands for the history in which its hub has accepted the first v changes of the old
    // net. So `goes`, `at_version` and `grows_as_told` of `laws_of_processes` hold of all that it does, and so do the laws
    // of rights there, from versions of the old net on.
    ensures begins { (old : Net) (h : History) → Stands old h → (bot version count : ℕ) (w : Net)
        → IsHeirOf old bot version count w → Stands w (heir_start count (take version h.hub.kept.accepted)) }
    // If the hub was promoted, or a bot at the hub's version, the heir's hub has accepted each change that the old hub had.
    ensures nothing_lost { (old : Net) (h : History) → Stands old h → (version count : ℕ) → shown_version old 0 ≡ Some version
        → changes_of (heir_start count (take version h.hub.kept.accepted)).hub.kept.accepted ≡ changes_of h.hub.kept.accepted }
    // Then the heir's hub shows the version and the records that the old hub showed at that moment: those after each change
    // that it had accepted.
    ensures all_stands { (old : Net) (h : History) → Stands old h → (bot version count : ℕ) (w : Net)
        → shown_version old 0 ≡ Some version → IsHeirOf old bot version count w
        → (heir : ℕ) → shown_version w 0 ≡ Some heir → (heir ≡ version) × (shown_records w 0 ≡ shown_records old 0) }
    // So a net stands for a history, however many ancestors it has: none, if it is new.
    ensures stands { (ancestors : List Ancestor) (w : Net) → Descends P.promised ancestors w → (h : History) × Stands w h }
    // At any two moments, bots of one net at one version hold the same records.
    ensures same_records { (ancestors : List Ancestor) (w : Net) (deeds : List Deed)
        → Descends P.promised ancestors w → Run P.promised w deeds → (i j one other version : ℕ)
        → shown_version (net_at w deeds i) one ≡ Some version → shown_version (net_at w deeds j) other ≡ Some version
        → shown_records (net_at w deeds i) one ≡ shown_records (net_at w deeds j) other }
    // So do a bot of the old net and one of its heir, at any two moments, if their version is at most that of the promoted
    // bot.
    ensures agree { (parent : Ancestor) (others : List Ancestor) (w : Net) (deeds : List Deed)
        → Descends P.promised (parent ∷ others) w → Run P.promised w deeds
        → (i j one other version : ℕ) → version ≤ parent.version
        → shown_version (net_at parent.net parent.deeds i) one ≡ Some version
        → shown_version (net_at w deeds j) other ≡ Some version
        → shown_records (net_at parent.net parent.deeds i) one ≡ shown_records (net_at w deeds j) other }
    // So do a bot of any ancestor and one of its heir's heir, and so on, if their version is at most that of each promoted
    // bot on the way.
    ensures agree_with_ancestors { (ancestors : List Ancestor) (w : Net) (deeds : List Deed)
        → Descends P.promised ancestors w → Run P.promised w deeds → (k : ℕ) (ancestor : Ancestor)
        → slice_get ancestors k ≡ Some ancestor → (i j one other version : ℕ) → AreAtLeast version (take (suc k) ancestors)
        → shown_version (net_at ancestor.net ancestor.deeds i) one ≡ Some version
        → shown_version (net_at w deeds j) other ≡ Some version
        → shown_records (net_at ancestor.net ancestor.deeds i) one ≡ shown_records (net_at w deeds j) other }
    // No version of an heir's net goes back, but for a leaf that is replaced there.
    ensures never_back { (ancestors : List Ancestor) (w : Net) (first more : List Deed)
        → Descends P.promised ancestors w → Run P.promised w (first ++ more) → (bot before after : ℕ) → Stays bot more
        → shown_version (net_after w first) bot ≡ Some before
        → shown_version (net_after w (first ++ more)) bot ≡ Some after → before ≤ after }
    // The heir's hub is never below the version of the promoted bot.
    ensures not_below { (parent : Ancestor) (others : List Ancestor) (w : Net) (deeds : List Deed)
        → Descends P.promised (parent ∷ others) w → Run P.promised w deeds → (i version : ℕ)
        → shown_version (net_at w deeds i) 0 ≡ Some version → parent.version ≤ version }
    // A request is accepted at most once in an heir's net, and is reported so.
    ensures once { (ancestors : List Ancestor) (w : Net) (deeds : List Deed)
        → Descends P.promised ancestors w → Run P.promised w deeds → Once (net_after w deeds) }
    // Bots of one net that are alike call the same procs, at any two moments, over stores of the same names.
    ensures same_calls { (ancestors : List Ancestor) (w : Net) (deeds : List Deed)
        → Descends P.promised ancestors w → Run P.promised w deeds
        → (i j one other : ℕ) (s t : Step) (a b : Calling)
        → slice_get deeds i ≡ Some (Made one s) → slice_get deeds j ≡ Some (Made other t) → s.names ≡ t.names
        → calling_of s ≡ Some a → calling_of t ≡ Some b → IsAlike a b → a.calls ≡ b.calls }
    // So do a bot of any ancestor and one of the heir's net, if their version is at most that of each promoted bot on the
    // way.
    ensures same_calls_as_ancestors { (ancestors : List Ancestor) (w : Net) (deeds : List Deed)
        → Descends P.promised ancestors w → Run P.promised w deeds → (k : ℕ) (ancestor : Ancestor)
        → slice_get ancestors k ≡ Some ancestor → (i j one other : ℕ) (s t : Step) (a b : Calling)
        → slice_get ancestor.deeds i ≡ Some (Made one s) → slice_get deeds j ≡ Some (Made other t) → s.names ≡ t.names
        → calling_of s ≡ Some a → calling_of t ≡ Some b → AreAtLeast (link_version a.bot.link) (take (suc k) ancestors)
        → IsAlike a b → a.calls ≡ b.calls }
    // If the promoted bot's version was at least what the hub showed at a moment, no bot was above it at that moment or
    // before. So all that these bots had is in the heir's net, by `agree`.
    ensures handed_over { (parent : Ancestor) (others : List Ancestor) (w : Net) → Descends P.promised (parent ∷ others) w
        → (i j one last version : ℕ) → i ≤ j → shown_version (net_at parent.net parent.deeds j) 0 ≡ Some last
        → last ≤ parent.version → shown_version (net_at parent.net parent.deeds i) one ≡ Some version
        → version ≤ parent.version }
    // A bot that has stopped can be promoted: a process that opens it is a deed, and then shows what its disks mean.
    ensures stopped { (w : Net) (bot : ℕ) (x y : List ℕ) (config : Config) (device : Device) (end : End)
        → slice_get w.processes bot ≡ Some (Ended x y) → config.number ≡ bot → config.leaves + 1 ≡ length w.processes
        → IsKeptOf bot config.leaves (meaning x y) end → CanShow P.promised w bot (end_version end) (end_records end) }
    // The heir's hub may be a folder that no process has opened yet.
    ensures founded { (count version : ℕ) (records : Records) (x y : List ℕ) (device : Device) (leaves : List Process)
        → MeanHeir count version records x y → length leaves ≡ count
        → ((place : ℕ) (process : Process) → slice_get leaves place ≡ Some process → IsNew count (suc place) process)
        → IsHeir count version records (net_over x y leaves) }
    // The premises can be met: there is an heir whose own first change has reached its leaf.
    ensures catches_up { List (List ℕ) → Config → Device → CatchesUp P.promised }
{
    laws_of_processes::<P, MemDisk>();
}
