// What the calls of a journal promise together, proved of the definitions.
ghost use Rattle.std.specs.Prelude.{List, ℕ, Result, Ok};
ghost use Rattle.bytejournal.specs.declared.journal.Journal.{Journal};
ghost use Rattle.bytejournal.specs.declared.opening.Opened.{Opened};
ghost use Rattle.bytejournal.specs.declared.opening.Returned.{Returned};
ghost use Rattle.bytejournal.specs.Opening.{Creates, Opens, Restarts};
ghost use Rattle.bytejournal.specs.Recovery.{Stage, Calls, Lives, IsJournal, IsIntact, IsRecoverable, FindsJournal};
ghost use Rattle.bytejournal.specs.Recovery.Stage.{InProgram};
ghost use Rattle.bytejournal.specs.Journal.{IsSound, first_disk, second_disk};

use disks::Disk;

/// The laws of a journal that only this library writes. The function does nothing: its clauses hold for any disks.
pub fn laws_of_journals<D: Disk>()
    // After a `create` that returned `Ok`, through any calls and through crashes at any moment of them: a journal that
    // a program holds may be called, and what a crash leaves on the disks is a journal.
    ensures kept { (first second : D) (layout : ℕ) (base : List ℕ) (journal : Journal D) (last : Stage D)
        → Creates D.state first second layout base (Ok journal)
        → Lives D.state (Calls D.state) (InProgram journal) last → IsIntact D.state (IsSound D.state) IsJournal last }
    // So opening it never returns `NotAJournal`, and finds all gates.
    ensures opened { (first second : D) (result : Result (Opened D) (Returned D))
        → IsRecoverable D.state IsJournal first second → Opens D.state first second result → FindsJournal result }
    ensures restarted { (journal : Journal D) (result : Result (Opened D) (Returned D))
        → IsRecoverable D.state IsJournal (first_disk journal) (second_disk journal) → Restarts D.state journal result → FindsJournal result }
{}
