// A store without procs.
use crate::call::Call;
use crate::promise::Promise;
use crate::reply::ProcReply;
use crate::run::Run;
use crate::store::ProcStore;
use crate::view::View;
use bytetext::NoMemory;

/// The procs of a store that has none. No store ever holds a `Nobody`, so nothing calls it; a call would return
/// `NoMemory`.
#[derive(Drop)]
pub struct Nobody;

impl Promise for Nobody {
    ghost use Rattle.std.specs.Prelude.{◌≡◌, []};
    ghost use Rattle.procs.specs.declared.reply.Code.TheVariants.{Zero};
    ghost use Rattle.procs.specs.Promises.{promised};

    ghost promised = { promised (λ _ _ _. Zero) (λ _ _ _ actions. actions ≡ []) };
}

impl Run for Nobody {
    ghost use Rattle.std.specs.Prelude.{IsErr};

    ghost can_run = { λ _. Unit {0} };

    ghost answers = { λ _ _ _ result. IsErr result };

    fn run(&self, _call: &Call, _view: &View<'_>) -> Result<ProcReply, NoMemory> {
        Err(NoMemory)
    }
}

/// A store of no procs, for bots that have no binds.
///
/// ```text
/// let store: Nobodies = ProcStore::new(alloc);
/// ```
pub type Nobodies = ProcStore<Nobody, Nobody>;
