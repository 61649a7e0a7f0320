// What holds at every server.
ghost use Rattle.std.specs.Prelude.{◌≡◌, ◌≤◌, ◌==◌, ◌++◌, ◌∷◌, [], ℕ, List, Bool, true, false};
ghost use Rattle.std.specs.List.{list_any};
ghost use Rattle.ircline.specs.Classes.{is_end};
ghost use Rattle.registration.specs.Runs.{count_of};
ghost use Rattle.serverlink.specs.Inquiries.{Event, all_asked, all_joined, announces};
ghost use Rattle.serverlink.specs.Questions.{begun, notified};
ghost use Rattle.serverlink.specs.Tags.{stage_after, untagged, without_tags};
ghost use Rattle.serverlink.specs.declared.tags.TagStage.{TagStage};
ghost use Rattle.serverlink.specs.declared.tags.TagStage.TheVariants.{Front};

/// States what [`TagStage::drop_tags`](crate::TagStage::drop_tags) leaves of a stream, by the definitions that it follows.
///
/// - What it leaves of a stream is what it leaves of its pieces, one after another, however the stream is cut.
/// - Of a stream that begins with a line it leaves that line without its tags, the byte that ends it, and what it leaves of
///   the rest.
/// - A line that does not begin with `@` has no tags: all of it stays.
pub fn laws_of_tags()
    ensures pieces { (stage : TagStage) (piece more : List ℕ)
        → untagged stage (piece ++ more) ≡ untagged stage piece ++ untagged (stage_after stage piece) more }
    ensures stages { (stage : TagStage) (piece more : List ℕ)
        → stage_after stage (piece ++ more) ≡ stage_after (stage_after stage piece) more }
    ensures lines { (line : List ℕ) (last : ℕ) (more : List ℕ) → list_any is_end line ≡ false → is_end last ≡ true
        → untagged Front (line ++ last ∷ more) ≡ without_tags line ++ last ∷ untagged Front more }
    ensures plain { (byte : ℕ) (line : List ℕ) → byte == 64 ≡ false → without_tags (byte ∷ line) ≡ byte ∷ line }
{}

/// States what a process asks about channels on one connection by [`WhoQuestions`](crate::WhoQuestions), by the definitions
/// that it follows, whatever the server says after the registration and whenever the process asks.
///
/// - About the channels of any set, by their names, it asks at most as often as the bot joins them.
/// - It asks nothing if the server does not announce WHOX, and nothing if the server does not say when somebody logs in or
///   out.
pub fn laws_of_the_questions()
    ensures once { (notifies : Bool) (test : List ℕ → Bool) (events : List Event)
        → count_of test (all_asked (notified notifies begun) events) ≤ count_of test (all_joined events) }
    ensures unannounced { (notifies : Bool) (events : List Event) → list_any announces events ≡ false
        → all_asked (notified notifies begun) events ≡ [] }
    ensures stale { (events : List Event) → all_asked (notified false begun) events ≡ [] }
{}
