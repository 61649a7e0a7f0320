// What the definitions mean.
ghost use Rattle.std.specs.Prelude.{◌≡◌, ◌≢◌, ◌≤◌, ◌+◌, ◌++◌, ◌∷◌, ℕ, Bool, List, None, [], true, false};
ghost use Rattle.std.specs.List.{AllByRecursion};
ghost use Rattle.bytetext.specs.Words.{first_word};
ghost use Rattle.floods.specs.declared.act.Act.{Act};
ghost use Rattle.floods.specs.declared.counts.Count.{Count};
ghost use Rattle.floods.specs.declared.floods.Verdict.TheVariants.{Passes};
ghost use Rattle.floods.specs.declared.ignores.Ignore.{Ignore};
ghost use Rattle.floods.specs.Acts.{command_named, is_said, person_of, words_of};
ghost use Rattle.floods.specs.Sifting.{Sieving, after_bytes, are_short, drops, sifted};
ghost use Rattle.floods.specs.Watching.{HasNoLimits, Watch, after, is_ignored, verdict};
ghost use Rattle.floods.specs.Windows.{fresh, is_at, window_in};

/// States that an ignore ends: once the second `until` of each ignore of a list has come, nobody is ignored.
pub fn ignores_end()
    ensures { (now : ℕ) (key : List ℕ) (ignores : List Ignore) → AllByRecursion (λ ignore. ignore.until ≤ now) ignores
        → is_ignored now key ignores ≡ false }
{}

/// States that only PRIVMSG and NOTICE lines with a prefix are dropped, and that a line with a command that is not
/// counted changes nothing. So a PING passes always, and so does a JOIN.
pub fn nothing_else_is_dropped()
    ensures unsaid { (trusted : List ℕ → Bool) (now : ℕ) (watch : Watch) (line : List ℕ)
        → is_said (first_word (words_of line)) ≡ false → drops (verdict trusted now watch line) ≡ 0 }
    ensures uncounted { (trusted : List ℕ → Bool) (now : ℕ) (watch : Watch) (line : List ℕ)
        → command_named (first_word (words_of line)) ≡ None
        → (verdict trusted now watch line ≡ Passes) × (after trusted now watch line ≡ watch) }
    ensures bare { (trusted : List ℕ → Bool) (now : ℕ) (watch : Watch) (b : ℕ) (bs : List ℕ) → b ≢ 58
        → (verdict trusted now watch (b ∷ bs) ≡ Passes) × (after trusted now watch (b ∷ bs) ≡ watch) }
{}

/// States that each line of a trusted person passes, and begins no ignore.
pub fn the_trusted_pass()
    ensures passes { (trusted : List ℕ → Bool) (now : ℕ) (watch : Watch) (line : List ℕ) → trusted (person_of line) ≡ true
        → verdict trusted now watch line ≡ Passes }
    ensures begins_none { (trusted : List ℕ → Bool) (now : ℕ) (watch : Watch) (line : List ℕ)
        → trusted (person_of line) ≡ true → (after trusted now watch line).ignores ≡ watch.ignores }
{}

/// States that lines on other channels do not count: if no line of the channel of `act` is counted, its window begins
/// now, and has no line. A JOIN, a KICK and a MODE are lines of a channel.
pub fn channels_count_apart()
    ensures { (now : ℕ) (act : Act) (counts : List Count)
        → AllByRecursion (λ count. is_at act.kind count.place act.place ≡ false) counts
        → window_in counts act now ≡ fresh now }
{}

/// States that without limits and ignores each byte passes, or waits for the end of its line. The lines are to have at
/// most 511 bytes: longer ones are cut.
pub fn without_limits()
    ensures { (trusted : List ℕ → Bool) (now : ℕ) (sieve : Sieving) (bytes : List ℕ) → HasNoLimits sieve.watch
        → are_short sieve.line bytes ≡ true
        → sifted trusted now sieve bytes ++ (after_bytes trusted now sieve bytes).line ≡ sieve.line ++ bytes }
{}
