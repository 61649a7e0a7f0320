// What the definitions mean, in the words of RFC 2812 and of streams.
ghost use Rattle.std.specs.Prelude.{◌≡◌, ◌↔◌, ◌<◌, ◌≤◌, ℕ, List, [], ◌∷◌, ◌++◌, length, true, false};
ghost use Rattle.ircline.specs.declared.message.Message.{Message};
ghost use Rattle.ircline.specs.declared.line.Line.TheVariants as line;
ghost use Rattle.ircline.specs.declared.fault.LineFault.TheVariants as fault;
ghost use Rattle.ircline.specs.Words.{holds};
ghost use Rattle.ircline.specs.Grammar.{IsMessage, IsNameless};
ghost use Rattle.ircline.specs.Reading.{line_of};
ghost use Rattle.ircline.specs.Stream.{IsRun, Splits, runs_from, begun};

/// States that a line reads as the message that the grammar of RFC 2812 section 2.3.1 gives it, and that each fault
/// comes exactly when its rule says. Any other line is [`crate::Fault::BadCommand`].
pub fn reading_is_the_grammar()
    // A line reads as a message exactly if the grammar gives it that message and the line isn't too long.
    ensures message { (run : List ℕ) (message : Message) → IsRun run
        → ((line_of run ≡ line.Message message) ↔ ((length run ≤ 510) × IsMessage run message)) }
    ensures too_long { (run : List ℕ) → (line_of run ≡ line.Bad fault.TooLong) ↔ (510 < length run) }
    ensures nul_byte { (run : List ℕ) → (line_of run ≡ line.Bad fault.NulByte)
        ↔ ((length run ≤ 510) × (holds 0 run ≡ true)) }
    ensures bad_prefix { (run : List ℕ) → (line_of run ≡ line.Bad fault.BadPrefix)
        ↔ ((length run ≤ 510) × (holds 0 run ≡ false) × IsNameless run) }
{}

/// States that the runs of a stream and what follows its last end are the only way to split it at the bytes that end
/// lines: each run as long as possible, none empty, all in order.
pub fn runs_are_the_longest()
    ensures { (stream : List ℕ) (runs : List (List ℕ)) (rest : List ℕ)
        → Splits stream runs rest ↔ ((runs ≡ runs_from [] stream) × (rest ≡ begun stream)) }
{}
