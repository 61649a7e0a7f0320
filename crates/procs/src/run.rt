// What can be called.
use crate::call::Call;
use crate::reply::ProcReply;
use crate::view::View;
use bytetext::NoMemory;

/// The body of a proc: it is called with a [`Call`] and a [`View`] of its bot and returns a [`ProcReply`].
///
/// The two ghost members are for contracts. `can_run` must hold of a body so that it can be called with every `Call`.
/// `answers` relates a body, a `Call` and what the body sees to what it may answer.
pub trait Run: Drop {
    ghost use Rattle.std.specs.Prelude.{Result};
    ghost use Rattle.bytetext.specs.declared.memory.NoMemory.{NoMemory};
    ghost use Rattle.procs.specs.declared.call.Call.{Call};
    ghost use Rattle.procs.specs.declared.reply.ProcReply.{ProcReply};
    ghost use Rattle.procs.specs.Seen.{Seen};

    ghost can_run: { Self → Type 0 };

    ghost answers: { Self → Call → Seen → Result ProcReply NoMemory → Type 0 };

    /// Calls the body with `call` and `view`.
    ///
    /// # Errors
    /// `NoMemory` if the body runs out of memory.
    fn run(&self, call: &Call, view: &View<'_>) -> Result<ProcReply, NoMemory>
        requires { can_run self.now }
        ensures { answers self.now call.now view.now result };
}

/// A boxed closure, as a program's `main` creates it. A closure that builds lists holds an allocator of its own.
pub type Body = Box<dyn Fn(&Call, &View<'_>) -> Result<ProcReply, NoMemory>>;

impl Run for Body {
    ghost use Rattle.std.specs.Prelude.{◌≡◌};
    ghost use Rattle.std.specs.Borrow.{Bor};
    ghost use Rattle.procs.specs.declared.call.Call.{Call};
    ghost use Rattle.procs.specs.Seen.{Seen};

    ghost can_run = { λ body. Body.IsAlwaysCallable body };

    ghost answers = { λ body call seen answer. (at : Bor Call) × (on : Bor Seen)
        × (at.now ≡ call) × (on.now ≡ seen) × Body.post body at on answer };

    fn run(&self, call: &Call, view: &View<'_>) -> Result<ProcReply, NoMemory> {
        self(call, view)
    }
}
