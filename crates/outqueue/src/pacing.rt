// What sending amounts to over many moments.
ghost use Rattle.std.specs.Prelude.{◌≡◌, ℕ, ◌+◌, ◌-◌, ◌*◌, ◌<◌, ◌≤◌, max, List, ◌∷◌, ◌++◌, length, take, Some};
ghost use Rattle.outqueue.specs.Sending.{Sending, waiting, next_line, sent_over, after_over, AllUpTo};

use crate::limits::{AHEAD, COST};

/// States the laws of sending, over the lines that [`Queues::drain`](crate::Queues::drain) returns at any list of
/// moments.
///
/// No line is lost, doubled or overtaken by a later line of its queue or by a line of a lower queue: the lines sent,
/// followed by those that still wait, are those that waited at first. And no flood leaves: the timer at the start, plus
/// two seconds for each line sent, is at most eleven seconds after the last moment, unless the timer was later than
/// that at the start.
///
/// An answer to PING waits for no line of a queue: it goes as soon as a line may go and all answers before it have gone.
/// So the first lines that are sent are these answers, whatever the queues hold.
pub fn over_moments()
    ensures order { (q : Sending) (moments : List ℕ) →
        sent_over q moments ++ waiting (after_over q moments) ≡ waiting q }
    ensures pace { (q : Sending) (moments : List ℕ) (last : ℕ) → AllUpTo last moments →
        q.timer + COST * length (sent_over q moments) ≤ max q.timer (last + (AHEAD + COST - 1)) }
    ensures prompt { (q : Sending) (now : ℕ) (line : List ℕ) (later : List (List ℕ)) → q.prompt ≡ line ∷ later
        → max q.timer now < now + AHEAD → next_line q now ≡ Some line }
    ensures prompt_first { (q : Sending) (moments : List ℕ) →
        take (length q.prompt) (sent_over q moments) ≡ take (length (sent_over q moments)) q.prompt }
{}
