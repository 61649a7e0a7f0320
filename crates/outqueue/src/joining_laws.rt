// What joining keeps.
ghost use Rattle.std.specs.Prelude.{◌≡◌, ℕ, ◌+◌, ◌-◌, ◌*◌, ◌<◌, ◌≤◌, max, List, [], ◌∷◌, ◌++◌, length};
ghost use Rattle.std.specs.List.{filter};
ghost use Rattle.outqueue.specs.Sending.{Sending, waiting, AllUpTo};
ghost use Rattle.outqueue.specs.Joining.{after_joined, group, groups, groups_over, is_about, joined, lines_of, next_group, GoTogether};
ghost use Rattle.outqueue.specs.Shares.{IsFair, StandOnce};

use crate::limits::{AHEAD, COST, MAX_JOINED};

/// States the laws of [`Queues::drain_joined`](crate::Queues::drain_joined), over the lines that waited: those that go
/// together in one line are a group.
///
/// - `order`: of the lines about any one channel, none is lost or doubled, and none changes its place among them: those that
///   go, in the order of the groups, followed by those that still wait, are those that waited.
/// - `together`: a group of several lines is of modes of one channel, and has at most `most` lines.
/// - `short`: the line that several make has at most [`MAX_JOINED`] bytes.
/// - `pace`: at any list of moments, the timer at the start, plus two seconds for each line sent, is at most eleven seconds
///   after the last moment, unless the timer was later than that at the start.
/// - `greatest`: no further line may go at that moment, or none waits.
/// - `prompt`: if a line may go, the first answer to PING goes alone and before all others.
/// - `once`, `fair`: lines of the mode queue that stood once do so afterwards, and shares that were fair are.
pub fn laws_of_joining()
    ensures order { (most : ℕ) (q : Sending) (now : ℕ) (channel : List ℕ) →
        filter (is_about channel) (lines_of (groups most q now) ++ waiting (after_joined most q now))
        ≡ filter (is_about channel) (waiting q) }
    ensures together { (most : ℕ) (lines : List (List ℕ)) → GoTogether most (group most lines) }
    ensures short { (most : ℕ) (lines : List (List ℕ)) → 1 < length (group most lines)
        → length (joined (group most lines)) ≤ MAX_JOINED }
    ensures pace { (most : ℕ) (q : Sending) (moments : List ℕ) (last : ℕ) → AllUpTo last moments →
        q.timer + COST * length (groups_over most q moments) ≤ max q.timer (last + (AHEAD + COST - 1)) }
    ensures greatest { (most : ℕ) (q : Sending) (now : ℕ) → next_group most (after_joined most q now) now ≡ [] }
    ensures prompt { (most : ℕ) (q : Sending) (now : ℕ) (line : List ℕ) (later : List (List ℕ)) → q.prompt ≡ line ∷ later
        → max q.timer now < now + AHEAD → next_group most q now ≡ line ∷ [] }
    ensures once { (most : ℕ) (q : Sending) (now : ℕ) → StandOnce q.mode → StandOnce (after_joined most q now).mode }
    ensures fair { (most : ℕ) (q : Sending) (now : ℕ) → IsFair q → IsFair (after_joined most q now) }
{}
