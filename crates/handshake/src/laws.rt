// What the definitions of the handshake mean.
ghost use Rattle.std.specs.Prelude.{◌≡◌, ◌++◌, ℕ, true, List, length, None};
ghost use Rattle.handshake.specs.declared.fault.HandshakeFault.TheVariants.{Told};
ghost use Rattle.handshake.specs.declared.progress.Progress.{Progress};
ghost use Rattle.handshake.specs.declared.progress.LeafRights.{LeafRights};
ghost use Rattle.handshake.specs.declared.refusal.HandshakeRefusal.{HandshakeRefusal};
ghost use Rattle.handshake.specs.declared.sides.LeafWords.{LeafWords};
ghost use Rattle.handshake.specs.declared.sides.HubAnswer.{HubAnswer};
ghost use Rattle.handshake.specs.declared.hub_side.HubHears.TheVariants.{Asks};
ghost use Rattle.handshake.specs.declared.hub_side.HubSide.{HubSide};
ghost use Rattle.handshake.specs.declared.leaf_side.LeafHears.TheVariants.{Answers, Joined, Refused};
ghost use Rattle.handshake.specs.declared.leaf_side.LeafSide.{LeafSide};
ghost use Rattle.handshake.specs.Digits.{are_digits};
ghost use Rattle.handshake.specs.Keys.{to_hub_text, to_leaf_text};
ghost use Rattle.handshake.specs.Lines.{greeting, hub_front, leaf_line, leaf_text, no_front, with_nonces};
ghost use Rattle.handshake.specs.Meetings.{AreProgress, AreWords, HubCode, IsAnswer, LeafCode, Meet, RefusalCode, ToHubKey, ToLeafKey, ask_of, use_of};
ghost use Rattle.handshake.specs.Nets.{may_be_of};
ghost use Rattle.handshake.specs.Sides.{hub_answer, hub_hears, hub_keys, leaf_hears, leaf_words, refusal_line, welcome_line};

/// A hub and a leaf that has its own key of the hub's secret understand each other, whatever comes after their lines.
/// The leaf answers a greeting, and the hub hears who asks. The leaf joins with the line that welcomes it, and both
/// sides then have the same keys. A line that refuses it tells the leaf why.
pub fn laws_of_the_handshake()
    ensures greets { (leaf : LeafSide) (nonce more : List ℕ) → leaf.greeted ≡ None → are_digits 32 nonce ≡ true
        → leaf_hears leaf (greeting nonce ++ more) ≡ Answers (length (greeting nonce)) (leaf_line leaf.key (leaf_words leaf) nonce) }
    ensures asks { (hub : HubSide) (leaf : LeafSide) (more : List ℕ) → Meet hub leaf
        → hub_hears hub (leaf_line leaf.key (leaf_words leaf) hub.nonce ++ more)
        ≡ Asks (length (leaf_line leaf.key (leaf_words leaf) hub.nonce)) (ask_of leaf hub.nonce) }
    ensures joins { (hub : HubSide) (leaf : LeafSide) (own : Progress) (may : LeafRights) (more : List ℕ) → Meet hub leaf
        → AreProgress own → may_be_of hub.net leaf.net ≡ true
        → leaf_hears leaf (welcome_line hub (ask_of leaf hub.nonce) own may ++ more)
        ≡ Joined (length (welcome_line hub (ask_of leaf hub.nonce) own may)) (hub_answer hub own may)
        (hub_keys hub (ask_of leaf hub.nonce) own may) }
    ensures learns { (hub : HubSide) (leaf : LeafSide) (refusal : HandshakeRefusal) (more : List ℕ) → Meet hub leaf
        → leaf_hears leaf (refusal_line hub (ask_of leaf hub.nonce) refusal ++ more) ≡ Refused (Told refusal) }
{}

/// A code or a key of one use is never worth anything for another: the texts that are hashed under a leaf's key differ by
/// use. And each text has one reading, so a code stands for the very words and nonces of its line.
pub fn laws_of_texts()
    ensures leaf { (words : LeafWords) (nonce : List ℕ) → AreWords words → use_of (leaf_text words nonce) ≡ LeafCode }
    ensures hub { (answer : HubAnswer) (leaf_nonce hub_nonce : List ℕ) → IsAnswer answer
        → use_of (with_nonces (hub_front answer) leaf_nonce hub_nonce) ≡ HubCode }
    ensures refusal { (refusal : HandshakeRefusal) (leaf_nonce hub_nonce : List ℕ)
        → use_of (with_nonces (no_front refusal) leaf_nonce hub_nonce) ≡ RefusalCode }
    ensures keys { (leaf_code hub_code : List ℕ) → (use_of (to_leaf_text leaf_code hub_code) ≡ ToLeafKey)
        × (use_of (to_hub_text leaf_code hub_code) ≡ ToHubKey) }
    // The keys of the two directions are made of different texts.
    ensures directions { (a b c d : List ℕ) → to_leaf_text a b ≡ to_hub_text c d → ⊥ }
    ensures words { (a b : LeafWords) (m n : List ℕ) → AreWords a → AreWords b → are_digits 32 m ≡ true → are_digits 32 n ≡ true
        → leaf_text a m ≡ leaf_text b n → (a ≡ b) × (m ≡ n) }
    ensures answers { (a b : HubAnswer) (k l m n : List ℕ) → IsAnswer a → IsAnswer b → are_digits 32 k ≡ true → are_digits 32 l ≡ true
        → with_nonces (hub_front a) k m ≡ with_nonces (hub_front b) l n → (a ≡ b) × (k ≡ l) × (m ≡ n) }
{}
