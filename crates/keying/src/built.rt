// The built plan's openings, and the delivery. What is sealed, and the tied sets that group the keys, come from the pass.
ghost use Rattle.std.specs.Prelude.{◌≡◌};
ghost use Rattle.laws.specs.Upwards.{each};
ghost use Rattle.layout.specs.Held.{night_held};
ghost use Rattle.night.specs.Night.{node_of};
ghost use Rattle.keying.specs.Parts.{delivery_of};

use crate::keys::Delivery;
use layout::PlanFile;
use night::{Header, versions};

// What each node needs in clear, which it opens in the plan of an accepted file, where everything arrives sealed; nothing past the last node.
pub fn all_opens(file: &PlanFile<'_>) -> [u64; 64]
    ensures { result ≡ each 64 (λ i. (node_of (night_held file.now) i).needed) }
{
    let mut opens = [0; 64];
    for i in 0..64 {
        opens[i] = file.node(i).needed;
    }
    opens
}

// The delivery where `sealed` leaves the root so: the user opens it, and nobody opens anything in a version without a user.
#[tactic(auto, unfolding(crate::specs::Parts::delivery_of))]
pub fn delivery(h: Header, sealed: u64) -> Delivery
    ensures { result ≡ delivery_of h sealed }
{
    let opened = if versions::delivers(h.version) {
        sealed
    } else {
        0
    };
    Delivery {
        user: h.user,
        opened,
    }
}
