//! Which packets have not left at the end of a recorded run.

ghost use Rattle.std.specs.Prelude.{◌≡◌, true, false};
ghost use Rattle.std.specs.List.{Any, All};
ghost use Rattle.run_packets.specs.Works.{is_worked_off};

use crate::site::Site;
use run_packets::is_complete;

/// Whether a packet that is worked off is at a server.
pub(crate) fn some_complete(sites: &[Site]) -> bool
    ensures complete { result ≡ true → Any (λ x. is_worked_off x.under) sites.now }
    ensures none { result ≡ false → All (λ x. ¬ is_worked_off x.under) sites.now }
{
    for site in sites {
        if is_complete(&site.under) {
            return true;
        }
    }
    false
}
