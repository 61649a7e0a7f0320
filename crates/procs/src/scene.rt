// What calls depend on.
use crate::promise::Promise;
use crate::run::Run;
use crate::store::ProcStore;
use crate::table::BindTable;
use crate::view::View;

/// Everything that calls depend on, other than the occasions.
#[derive(Drop)]
pub struct Scene<'a, P: Promise, B: Run> {
    /// The procs.
    pub store: &'a ProcStore<P, B>,
    /// The binds.
    pub binds: &'a BindTable,
    /// What the procs see of their bot. People have the flags that its userfile gives.
    pub view: &'a View<'a>,
    /// Whether a text for which a `msgm` or `pubm` proc was called is not an event for `msg` or `pub` binds.
    pub exclusive: bool,
}
