// What the definition of a line that the server passes on means.
ghost use Rattle.std.specs.Prelude.{◌≡◌, ◌≤◌, ◌-◌, ◌++◌, ◌∷◌, [], ℕ, List, true, length};
ghost use Rattle.std.specs.List.{flat_map};
ghost use Rattle.ircline.specs.Classes.{filled};
ghost use Rattle.ircline.specs.Printing.{canonical, ReadsBack};
ghost use Rattle.miniircd.specs.Lines.{cut, head, relayed, IsLongest, Relays, relay, relay_message};

/// States that a line that is passed on is the canonical line of the message with its last parameter cut.
pub fn relays_are_canonical()
    ensures { (source command last : List ℕ) (middles : List (List ℕ)) → filled source ≡ true →
        let words = flat_map (λ word. 32 ∷ word) middles in
        relayed source command words last
        ≡ canonical (record { prefix = source; command = command; params = middles ++ cut (509 - length (head source command words)) last ∷ []; rest = [] }) }
{}

/// States that a last parameter is cut to its longest front that fits.
pub fn cuts_are_the_longest()
    ensures { (room : ℕ) (last : List ℕ) → 1 ≤ room → IsLongest room last (cut room last) }
{}

/// States that a line that is passed on, with parts that the protocol allows, reads back as its message with the last
/// parameter cut.
pub fn relays_read_back()
    ensures { (source command last : List ℕ) (middles : List (List ℕ)) → Relays source command last middles →
        ReadsBack (relay source command last middles) (relay_message source command last middles) }
{}
