// The laws of worlds: processes of bots, the network and the files.
ghost use Rattle.std.specs.Prelude.{◌≡◌, ◌≤◌, ◌++◌, ℕ, List, slice_get, Some};
ghost use Rattle.protocol.specs.Packets.{AcceptedChange};
ghost use Rattle.protocol.specs.Rights.{KeepsRights};
ghost use Rattle.botcore.specs.declared.config.Config.{Config};
ghost use Rattle.botcore.specs.Bots.{Bot};
ghost use Rattle.botcore.specs.Links.{link_version, link_records};
ghost use Rattle.watching.specs.Following.{IsLawful};
ghost use Rattle.botworld.specs.Calling.{Calling, IsAlike, IsAlikeButChannels, IgnoresChannels};
ghost use Rattle.processes.specs.Deeds.{Net, Step, Made, IsFirst};
ghost use Rattle.processes.specs.Promises.{calling_of};
ghost use Rattle.runlaws.specs.Folders.{Folder, Happening, past_of, bot_of};
ghost use Rattle.runlaws.specs.Worlds.{IsWorld, AreDeeds, OnceIn, StaysIn, steps_in, station};
ghost use Rattle.runlaws.specs.Histories.{AreAccepted};
ghost use Rattle.runlaws.specs.Examples.{ReachesLeaf, RenewsLeaf};

use disks::MemDisk;
use processes::laws_of_processes;
use procs::Promise;

/// States what holds of every world of bots in processes of their own, over procs that keep the promise `P`. The call
/// does nothing.
pub fn laws_of_worlds<P: Promise>()
    // What the process in a folder has done at any moment is lawful.
    ensures lawful { (folders : ℕ → Folder) (count : ℕ) (first : Net) (world : List Happening)
        → IsWorld P.promised folders count first world → (folder : ℕ)
        → IsLawful P.promised (folders folder).names (station count (folders folder).number) (past_of folder world) }
    // Whatever happens is a list of deeds of the bots.
    ensures deeds { (folders : ℕ → Folder) (count : ℕ) (first : Net) (world : List Happening)
        → IsFirst count first → IsWorld P.promised folders count first world → AreDeeds P.promised folders first world }
    // The changes that the hub has accepted are a list that grows as the reports of the hub's steps say. The end of a
    // process, or a bot that begins, adds at most the change that the hub was journaling. At each moment a bot at version v
    // holds the records that the first v of these changes make. The list keeps the rights of persons: each change for which a
    // person asked was that person's right, by the records just before it, and nobody climbs.
    ensures accepted { (folders : ℕ → Folder) (count : ℕ) (first : Net) (world : List Happening)
        → IsFirst count first → IsWorld P.promised folders count first world
        → (changes : List AcceptedChange) × AreAccepted folders world changes × KeepsRights changes }
    // At any two moments, bots that processes have at one version hold the same records.
    ensures same_records { (folders : ℕ → Folder) (count : ℕ) (first : Net) (more world : List Happening)
        → IsFirst count first → IsWorld P.promised folders count first (more ++ world) → (one other : ℕ) (a b : Bot)
        → bot_of folders one world ≡ Some a → bot_of folders other (more ++ world) ≡ Some b
        → link_version a.link ≡ link_version b.link → link_records a.link ≡ link_records b.link }
    // No version goes back, even if the bot's process ended in between, at whatever moment, and another one opened the
    // bot. Only a leaf that is renewed begins again.
    ensures never_back { (folders : ℕ → Folder) (count : ℕ) (first : Net) (more world : List Happening)
        → IsFirst count first → IsWorld P.promised folders count first (more ++ world) → (who : ℕ) (a b : Bot)
        → bot_of folders who world ≡ Some a → bot_of folders who (more ++ world) ≡ Some b → StaysIn folders who more
        → link_version a.link ≤ link_version b.link }
    // A request is accepted at most once, and is reported so.
    ensures once { (folders : ℕ → Folder) (count : ℕ) (first : Net) (world : List Happening)
        → IsFirst count first → IsWorld P.promised folders count first world → OnceIn folders world }
    // Bots that are alike call the same procs, at any two moments, over stores of the same names.
    ensures same_calls { (folders : ℕ → Folder) (count : ℕ) (first : Net) (world : List Happening)
        → IsFirst count first → IsWorld P.promised folders count first world
        → (i j one other : ℕ) (s t : Step) (a b : Calling)
        → slice_get (steps_in folders world) i ≡ Some (Made one s)
        → slice_get (steps_in folders world) j ≡ Some (Made other t) → s.names ≡ t.names
        → calling_of s ≡ Some a → calling_of t ≡ Some b → IsAlike a b → a.calls ≡ b.calls }
    // So do bots that are alike except for their channels, on servers that compare names alike, if the promised codes
    // ignore the channels.
    ensures same_calls_ignoring_channels { IgnoresChannels P.promised
        → (folders : ℕ → Folder) (count : ℕ) (first : Net) (world : List Happening)
        → IsFirst count first → IsWorld P.promised folders count first world
        → (i j one other : ℕ) (s t : Step) (a b : Calling)
        → slice_get (steps_in folders world) i ≡ Some (Made one s)
        → slice_get (steps_in folders world) j ≡ Some (Made other t) → s.names ≡ t.names
        → calling_of s ≡ Some a → calling_of t ≡ Some b → IsAlikeButChannels a b → a.calls ≡ b.calls }
    // The premises can be met: there is a world in which a change that a hub accepted has reached its leaf.
    ensures reaches { (names : ℕ → List (List ℕ)) → Config → ReachesLeaf P.promised names }
    // There is one in which the leaf is renewed.
    ensures renews { (names : ℕ → List (List ℕ)) → Config → RenewsLeaf P.promised names }
{
    laws_of_processes::<P, MemDisk>();
}
