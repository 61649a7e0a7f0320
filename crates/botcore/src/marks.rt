// Counts of a bot's asks and lines, by which those that came later can be taken back.
use crate::bot::Bot;
use disks::Disk;
use outqueue::Counts;

// The number of asks and of lines that wait.
#[derive(Clone, Copy)]
pub(crate) struct Marks {
    // The asks.
    asks: usize,
    // The lines, by their queue.
    lines: Counts,
}

impl<D: Disk> Bot<D> {
    ghost use Rattle.std.specs.Prelude.{◌≡◌};
    ghost use Rattle.outqueue.specs.Sending.{counts_of, no_room};
    ghost use Rattle.botcore.specs.Links.{ask_count};
    ghost use Rattle.botcore.specs.Progress.{with_oldest};

    // Returns the number of asks and lines that wait.
    pub(crate) fn marks(&self) -> Marks
        ensures asks { result.asks ≡ ask_count self.now.link }
        ensures lines { result.lines ≡ counts_of self.now.queues }
        ensures no_room { self.now.queues.room ≡ no_room }
    {
        Marks {
            asks: self.link.ask_count(),
            lines: self.queues.counts(),
        }
    }

    // Takes back the asks and lines that came after `marks`. Does not allocate.
    pub(crate) fn take_back(&mut self, marks: Marks)
        ensures taken { self.new ≡ with_oldest self.old marks.asks marks.lines }
    {
        self.link.keep_asks(marks.asks);
        self.queues.keep(marks.lines);
    }
}
