// Which of several leaves has the highest version, and whether they are of one net.
ghost use Rattle.std.specs.Prelude.{◌≡◌, IfSome, None, length};
ghost use Rattle.promotion.specs.Leaves.{AreOfOneNet, IsHighest, IsOfOtherNet};

use crate::reading::LeafStanding;

/// Returns the place of the first of `standings` that has the highest version, or `None` if there are none.
pub fn highest(standings: &[LeafStanding]) -> Option<usize>
    ensures none { result ≡ None → length standings.now ≡ 0 }
    ensures highest { IfSome result (IsHighest standings.now) }
{
    let mut version = standings.first()?.version;
    let mut best = 0;
    for (place, standing) in standings.iter().enumerate() {
        if standing.version > version {
            version = standing.version;
            best = place;
        }
    }
    Some(best)
}

/// Returns the place of the first of `standings` whose net is not that of the first, or `None` if all are of one net.
pub fn other_net(standings: &[LeafStanding]) -> Option<usize>
    ensures none { result ≡ None → AreOfOneNet standings.now }
    ensures some { IfSome result (IsOfOtherNet standings.now) }
{
    let first = standings.first()?;
    for (place, standing) in standings.iter().enumerate() {
        if !standing.net.is_same(&first.net) {
            return Some(place);
        }
    }
    None
}
