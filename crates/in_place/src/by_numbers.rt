// A state as the numbers that a host lends.
ghost use Rattle.std.specs.Prelude.{◌≡◌};
ghost use Rattle.in_place.specs.Lent.{lent, state_at};

use crate::windows::{WindowNumbers, window_at};
use branch_cache::BranchCache060;
use state::Oep060Timing;

// The state that lent numbers stand for.
pub fn timing_at(tags: [u32; 256], state: [u8; 256], window: WindowNumbers) -> Oep060Timing
    ensures { result ≡ state_at (lent tags state window) }
{
    Oep060Timing {
        cache: BranchCache060 { tags, state },
        window: window_at(window),
    }
}
