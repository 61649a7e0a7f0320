// When a planned fault is due.
ghost use Rattle.std.specs.Prelude.{◌≡◌, ◌↔◌, IsTrue};
ghost use Rattle.disks.specs.Plans.{IsDue, fewer, fewer_once};

/// Whether a call fails whose fault is planned: once `left` is 0, this call and all later ones fail.
pub(crate) fn is_over(left: &mut Option<u64>) -> bool
    ensures due { IsTrue result ↔ IsDue left.old }
    ensures counted { left.new ≡ fewer left.old }
{
    match *left {
        None => false,
        Some(0) => true,
        Some(count) => {
            *left = Some(count - 1);
            false
        }
    }
}

/// Whether a call fails whose fault is planned: once `left` is 0, this call fails and no later one does.
pub(crate) fn is_due(left: &mut Option<u64>) -> bool
    ensures due { IsTrue result ↔ IsDue left.old }
    ensures counted { left.new ≡ fewer_once left.old }
{
    match *left {
        None => false,
        Some(0) => {
            *left = None;
            true
        }
        Some(count) => {
            *left = Some(count - 1);
            false
        }
    }
}
