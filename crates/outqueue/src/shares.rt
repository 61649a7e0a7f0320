// Lines that stand once, and fair shares, whatever is put and sent.
ghost use Rattle.std.specs.Prelude.{◌≡◌, ℕ, List, None};
ghost use Rattle.outqueue.specs.declared.queue.Queue.{Queue};
ghost use Rattle.outqueue.specs.declared.queue.QueueSet.{QueueSet};
ghost use Rattle.outqueue.specs.declared.queues.Counts.{Counts};
ghost use Rattle.outqueue.specs.Once.{once_refusal, put_once};
ghost use Rattle.outqueue.specs.Sending.{Sending, after, after_line, idle, with_first, without};
ghost use Rattle.outqueue.specs.Shares.{IsFair, StandOnce};

/// States the laws of [`Queues::put_once`](crate::Queues::put_once), over the definitions that the contracts of
/// [`Queues`](crate::Queues) cite.
///
/// A new `Queues` holds no two equal lines in its mode queue, and no target has more than its share of the other two.
/// Both stay so whatever is put by `put_once`, taken, drained, dropped by [`keep`](crate::Queues::keep) or cleared.
pub fn laws_of_shares()
    ensures once_new { StandOnce idle.mode }
    ensures once_put { (q : Sending) (queue : Queue) (line : List ℕ) → StandOnce q.mode
        → StandOnce (put_once q queue line).mode }
    ensures once_take { (q : Sending) (now : ℕ) → StandOnce q.mode → StandOnce (after_line q now).mode }
    ensures once_drain { (q : Sending) (now : ℕ) → StandOnce q.mode → StandOnce (after q now).mode }
    ensures once_keep { (q : Sending) (counts : Counts) → StandOnce q.mode → StandOnce (with_first q counts).mode }
    ensures once_clear { (q : Sending) (which : QueueSet) → StandOnce q.mode → StandOnce (without q which).mode }
    ensures fair_new { IsFair idle }
    ensures fair_put { (q : Sending) (queue : Queue) (line : List ℕ) → once_refusal q queue line ≡ None → IsFair q
        → IsFair (put_once q queue line) }
    ensures fair_take { (q : Sending) (now : ℕ) → IsFair q → IsFair (after_line q now) }
    ensures fair_drain { (q : Sending) (now : ℕ) → IsFair q → IsFair (after q now) }
    ensures fair_keep { (q : Sending) (counts : Counts) → IsFair q → IsFair (with_first q counts) }
    ensures fair_clear { (q : Sending) (which : QueueSet) → IsFair q → IsFair (without q which) }
{}
