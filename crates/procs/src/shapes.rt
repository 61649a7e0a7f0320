// Which masks a bind can have.
ghost use Rattle.std.specs.Prelude.{◌≡◌};
ghost use Rattle.bottimers.specs.CronMask.{is_mask};
ghost use Rattle.procs.specs.Tables.{is_bad_cron, is_bad_mask};

use crate::bind_kind::BindKind;
use crate::kinds::{is_cron, is_single};
use crate::limits::MAX_MASK;
use bottimers::Cron;

// Whether a mask is empty, too long, or more than one word though the kind takes one word.
pub(crate) fn is_bad_mask(kind: BindKind, mask: &[u8]) -> bool
    ensures { result ≡ is_bad_mask kind mask.now }
{
    mask.is_empty() || mask.len() > MAX_MASK || (is_single(kind) && mask.contains(&b' '))
}

// Whether the kind takes cron fields and the mask is not cron fields.
pub(crate) fn is_bad_cron(kind: BindKind, mask: &[u8]) -> bool
    ensures { result ≡ is_bad_cron kind mask.now }
{
    is_cron(kind) && !is_cron_mask(mask)
}

// Whether a text is cron fields.
fn is_cron_mask(mask: &[u8]) -> bool
    ensures { result ≡ is_mask mask.now }
{
    match Cron::parse(mask) {
        Ok(_) => true,
        Err(_) => false,
    }
}
