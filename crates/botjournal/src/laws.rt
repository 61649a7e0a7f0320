// What spellings promise to those who store them, and the calls of a journal together, proved of the definitions.
ghost use Rattle.std.specs.Prelude.{◌≡◌, ◌⊎◌, ◌∷◌, ℕ, List, Some, Result, Ok, true, false};
ghost use Rattle.bytejournal.specs.declared.ending.IfOpen.{IfOpen};
ghost use Rattle.bytejournal.specs.Ending.{ending_of};
ghost use Rattle.bytejournal.specs.Meaning.{Contents as Texts};
ghost use Rattle.botjournal.specs.declared.TheConstants.{LAYOUT};
ghost use Rattle.botjournal.specs.Sums.{start, AreCarried};
ghost use Rattle.botjournal.specs.Contents.{Contents, meaning};
ghost use Rattle.botjournal.specs.CutShort.{HasSums, ShowsUncut, is_cut_short};
ghost use Rattle.bytejournal.specs.declared.journal.Journal.{Journal as OfTexts};
ghost use Rattle.bytejournal.specs.declared.opening.Returned.{Returned};
ghost use Rattle.bytejournal.specs.Journal.{first_disk, second_disk, Holds};
ghost use Rattle.bytejournal.specs.Recovery.{Stage, Lives, IsIntact, IsRecoverable};
ghost use Rattle.bytejournal.specs.Recovery.Stage.{InProgram};
ghost use Rattle.botjournal.specs.declared.base.Base.{Base};
ghost use Rattle.botjournal.specs.Bases.{base_bytes, base_bytes_by, base_in, IsGoodBase, IsGoodBaseBy};
ghost use Rattle.botjournal.specs.declared.entry.Entry.{Entry};
ghost use Rattle.botjournal.specs.Entries.{entry_bytes, entry_in, IsGoodEntry, IsGoodEntryBy};
ghost use Rattle.botjournal.specs.declared.layouts.Layout.{Layout};
ghost use Rattle.botjournal.specs.declared.layouts.Layout.TheVariants.{Fourth};
ghost use Rattle.botjournal.specs.declared.opening.OpenedJournal.{OpenedJournal};
ghost use Rattle.botjournal.specs.Journal.{IsSound, Creates, Opens, Restarts};
ghost use Rattle.botjournal.specs.Recovery.{Calls, IsJournal, FindsJournal};

use disks::Disk;

/// The law of the spellings of entries. The function does nothing: its clauses hold for any entries.
pub fn laws_of_entries()
    // Reading an entry's spelling gives that entry, so no two entries share a spelling.
    ensures again { (entry : Entry) → IsGoodEntry entry → entry_in Fourth (entry_bytes entry) ≡ Some entry }
    // The same holds in each layout that is read, and what it spelled may be written.
    ensures again_old { (layout : Layout) (entry : Entry) → IsGoodEntryBy layout entry
        → entry_in layout (entry_bytes entry) ≡ Some entry }
    ensures writable { (layout : Layout) (entry : Entry) → IsGoodEntryBy layout entry → IsGoodEntry entry }
{}

/// The law of the spellings of bases. The function does nothing: its clauses hold for any bases.
pub fn laws_of_bases()
    // Reading a base's spelling gives that base, so no two bases share a spelling.
    ensures again { (base : Base) → IsGoodBase base → base_in Fourth (base_bytes base) ≡ Some base }
    // The same holds in each layout that is read, and what it spelled may be written.
    ensures again_old { (layout : Layout) (base : Base) → IsGoodBaseBy layout base
        → base_in layout (base_bytes_by layout base) ≡ Some base }
    ensures writable { (layout : Layout) (base : Base) → IsGoodBaseBy layout base → IsGoodBase base }
{}

/// The law of the sums. The function does nothing: its clause holds for any bytes of two disks.
pub fn laws_of_sums()
    // Where two disks mean a bot's journal, each text of layout 4 that stands behind an open gate ends with its sum: on
    // the disk that counts, and on the other one.
    ensures carried { (first second : List ℕ) (contents : Contents) (texts : Texts) → meaning first second ≡ Some contents
        → Holds first second texts → texts.layout ≡ LAYOUT
        → AreCarried (start LAYOUT texts.generation) (texts.base ∷ texts.entries) }
{}

/// The laws of journals that a device cut short. The function does nothing: its clauses hold for any bytes of two disks.
pub fn laws_of_cuts()
    // If one was cut short, then the base and all entries that one of its disks would hold, if the gate that ends it
    // were open, end with their sums.
    ensures carried { (first second : List ℕ) → is_cut_short first second ≡ true → (texts : IfOpen)
        × (((ending_of first).if_open ≡ Some texts) ⊎ ((ending_of second).if_open ≡ Some texts)) × HasSums texts }
    // One entry more than those that count doesn't say so, nor a base alone: this is what a crash leaves. Nor do the
    // entries of a disk that wouldn't count with its first gate open: this is what an append leaves of an older base.
    ensures few { (first second : List ℕ) → ShowsUncut first second → ShowsUncut second first
        → is_cut_short first second ≡ false }
{}

/// The laws of a bot's journal that only this library writes. The function does nothing: its clauses hold for any
/// disks.
pub fn laws_of_journals<D: Disk>()
    // After a `create` that returned `Ok`, through any calls and through crashes at any moment of them: a journal that
    // a program holds may be called, and what a crash leaves on the disks means a base and entries.
    ensures kept { (first second : D) (base : Base) (journal : OfTexts D) (last : Stage D)
        → Creates D.state first second base (Ok journal)
        → Lives D.state (Calls D.state) (InProgram journal) last → IsIntact D.state (IsSound D.state) IsJournal last }
    // So opening it never returns `NotAJournal`, and finds all gates.
    ensures opened { (first second : D) (result : Result (OpenedJournal D) (Returned D))
        → IsRecoverable D.state IsJournal first second → Opens D.state first second result → FindsJournal result }
    ensures restarted { (journal : OfTexts D) (result : Result (OpenedJournal D) (Returned D))
        → IsRecoverable D.state IsJournal (first_disk journal) (second_disk journal)
        → Restarts D.state journal result → FindsJournal result }
{}
