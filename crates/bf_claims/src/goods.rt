//! The good commits of a certificate, beside those that are claimed to be good.
ghost use Rattle.std.specs.Prelude.{◌≡◌, ◌<◌, ◌≤◌, length, All, IfSome};
ghost use Rattle.bf_claims.specs.Goods as goods;

use bf_reach::Row;

/// The index of the first listed place that is not among those claimed, or is listed twice; where none is,
/// the index behind the last one if a claimed place is not listed.
pub(crate) fn strange(mut claimed: Row, listed: &[u32]) -> Option<usize>
    requires { All (λ p. p < length claimed) listed.now }
    ensures value { result ≡ goods.strange claimed 0 listed.now }
    ensures within { IfSome result (λ index. index ≤ length listed.now) }
{
    for (index, place) in listed.iter().enumerate() {
        if claimed.get(*place) {
            claimed.set(*place, false);
        } else {
            return Some(index);
        }
    }
    if claimed.count() == 0 {
        None
    } else {
        Some(listed.len())
    }
}
