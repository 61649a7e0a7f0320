// What the definitions promise together.
ghost use Rattle.std.specs.Prelude.{◌≡◌, ◌≤◌, ◌+◌, ◌++◌, ◌∷◌, ℕ, List, Some, None, Ok};
ghost use Rattle.userfile.specs.Apply.{refusal};
ghost use Rattle.userfile.specs.Together.{AreSound};
ghost use Rattle.userfile.specs.declared.change.Change.{Change};
ghost use Rattle.botjournal.specs.Contents.{Contents};
ghost use Rattle.protocol.specs.Packets.Packet.{Change as change_packet};
ghost use Rattle.protocol.specs.Notes.{Note};
ghost use Rattle.protocol.specs.Notes.Note.{Accepted, Applied};
ghost use Rattle.protocol.specs.Bots.{How};
ghost use Rattle.protocol.specs.HubRules.{Hub, HubState, HubRecord, version_of, hub_folded, hub_pumped};
ghost use Rattle.protocol.specs.LeafRules.{Leaf, LeafState, LeafRecord, leaf_folded, leaf_received};
ghost use Rattle.protocol.specs.History.{start};
ghost use Rattle.protocol.specs.Network.{Net, Step, Course, stepped, new_net};
ghost use Rattle.protocol.specs.Claims.{shown_version, shown_records, Made, Ends, IsFineOutcome, MovesAsTold, net_after};
ghost use Rattle.protocol.specs.Journals.{hub_meaning, hub_written, HubMay, IsHubState, leaf_meaning, leaf_written, LeafMay, IsLeafState};

/// The laws of the sharing link. The function does nothing: its clauses hold for any net and any steps, whatever their
/// order, however devices fail, and whenever memory runs out.
pub fn laws_of_the_link()
    // At any two moments of a run, bots at one version show the same records.
    ensures same_records { (count : ℕ) (first more : List Made) (one other version : ℕ)
        → shown_version (net_after (new_net count) first) one ≡ Some version
        → shown_version (net_after (new_net count) (first ++ more)) other ≡ Some version
        → shown_records (net_after (new_net count) first) one ≡ shown_records (net_after (new_net count) (first ++ more)) other }
    // No version goes back.
    ensures never_back { (count : ℕ) (first more : List Made) (bot before after : ℕ)
        → shown_version (net_after (new_net count) first) bot ≡ Some before
        → shown_version (net_after (new_net count) (first ++ more)) bot ≡ Some after
        → before ≤ after }
    // No leaf's records diverge, and no hello has another layout than the bots'.
    ensures fine { (count : ℕ) (made : List Made) (course : Course) (step : Step)
        → IsFineOutcome (stepped course (net_after (new_net count) made) step).outcome }
    // A run is a history, and all that `Holds` says is true at each of its moments: a request is accepted at most once,
    // its change is the one that was asked, the hub reports it under its number and never as rejected; each change that
    // was sent is the accepted one; each hello has the bots' layout; each part is one of the records at its version. No
    // step takes back what was accepted, answered, asked or sent, and each answer that it sends is one of the last
    // eight to its leaf.
    ensures runs { (count : ℕ) (made : List Made) → Ends (new_net count) (start count) made }
    // The hub's version moves only when a step reports that a change was accepted, or that a restart found one.
    ensures moves { (course : Course) (net : Net) (step : Step) → MovesAsTold net (stepped course net step) }
    // A leaf applies its next change when that is delivered, and the call is done.
    ensures applied { (leaves number : ℕ) (how : How) (leaf : Leaf) (origin request : ℕ) (change : Change) (note : Note)
        → (leaf_received leaves number how leaf (change_packet (leaf.kept.version + 1) origin request change)).told ≡ Ok note
        → (note ≡ Applied (leaf.kept.version + 1))
        × ((leaf_received leaves number how leaf (change_packet (leaf.kept.version + 1) origin request change)).after.kept.version
        ≡ leaf.kept.version + 1) }
    // A pump that is done accepts the oldest ask if the records take it.
    ensures accepted { (leaves : ℕ) (how : How) (hub : Hub) (change : Change) (rest : List Change) (note : Note)
        → hub.loose ≡ change ∷ rest → refusal hub.kept.records change ≡ None
        → (hub_pumped leaves how hub).told ≡ Ok note → note ≡ Accepted (version_of hub.kept + 1) }
{}

/// The laws of what a link journals. The function does nothing: its clauses hold for any contents of a journal.
///
/// Take a journal that means a bot's state, and append a record of that state: the journal then means the state with
/// the record folded in. So a restart finds what was kept, or that with the record in doubt, and nothing else.
pub fn laws_of_link_journals()
    ensures hub { (leaves : ℕ) (contents : Contents) (hub : HubState) (entry : HubRecord) → hub_meaning leaves contents ≡ Some hub
        → hub.generation ≡ contents.generation → IsHubState leaves hub → HubMay hub entry
        → hub_meaning leaves (hub_written contents hub entry) ≡ Some (hub_folded hub entry) }
    ensures hub_state { (leaves : ℕ) (hub : HubState) (entry : HubRecord) → IsHubState leaves hub → HubMay hub entry
        → IsHubState leaves (hub_folded hub entry) }
    ensures leaf { (number : ℕ) (contents : Contents) (leaf : LeafState) (entry : LeafRecord) → leaf_meaning number contents ≡ Some leaf
        → leaf.generation ≡ contents.generation → AreSound leaf.records → LeafMay leaf entry
        → leaf_meaning number (leaf_written number contents leaf entry) ≡ Some (leaf_folded leaf entry) }
    ensures leaf_state { (leaf : LeafState) (entry : LeafRecord) → IsLeafState leaf → LeafMay leaf entry
        → IsLeafState (leaf_folded leaf entry) }
{}
