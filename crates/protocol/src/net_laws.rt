// What the link's laws say of ends in one list.
ghost use Rattle.std.specs.Prelude.{◌≡◌, ◌+◌, ℕ, List, [], length, slice_get, Some};
ghost use Rattle.protocol.specs.Numbers.{item_at};
ghost use Rattle.protocol.specs.Packets.{Sent};
ghost use Rattle.protocol.specs.Bots.{How};
ghost use Rattle.protocol.specs.Network.{Event};
ghost use Rattle.protocol.specs.History.{History, start, Grows};
ghost use Rattle.protocol.specs.Ends.{End, new_end, end_did, end_received};
ghost use Rattle.protocol.specs.Nets.{IsMoment, Shows, Keeps, RowFollows};

/// The laws of the sharing link for a caller that holds all ends in one list, the hub's first, and the list of the
/// packets that were ever sent. The function does nothing: its clauses hold for any ends and packets that a moment of
/// history left.
pub fn laws_of_ends()
    // Ends that were never used are such a moment: the first.
    ensures begins { (count : ℕ) (ends : List End) → length ends ≡ count + 1
        → ((place : ℕ) (end : End) → slice_get ends place ≡ Some end → end ≡ new_end place count)
        → IsMoment ends [] (start count) }
    // Each end shows the records that its version means, and each part that was ever sent is of good shape.
    ensures shows { (ends : List End) (packets : List Sent) (h : History) → IsMoment ends packets h → Shows ends packets h }
    // One event at a bot, however its device works, leaves such a moment, into which history grew.
    ensures did { (ends : List End) (packets : List Sent) (h : History) → IsMoment ends packets h
        → (leaves bot : ℕ) (end : End) (how : How) (event : Event) → leaves ≡ h.count → slice_get ends bot ≡ Some end
        → RowFollows h ends packets bot (end_did leaves bot how end event) }
    // So does a bot that takes a packet that was sent to it, for the first time or again.
    ensures received { (ends : List End) (packets : List Sent) (h : History) → IsMoment ends packets h
        → (leaves number : ℕ) (sent : Sent) (end : End) (how : How) → leaves ≡ h.count → item_at packets number ≡ Some sent
        → slice_get ends sent.to ≡ Some end
        → RowFollows h ends packets sent.to (end_received leaves sent.to how end sent.packet) }
    // From one moment to a later one: ends of one version show the same records, and no version goes back.
    ensures keeps { (ends : List End) (packets : List Sent) (h : History) → IsMoment ends packets h
        → (later : List End) (more : List Sent) (next : History) → IsMoment later more next → Grows h next → Keeps ends later }
{}
