// What a step and a link cost.
ghost use Rattle.std.specs.Prelude.{◌≡◌, ◌*◌, eqb, if◌then◌else◌};
ghost use Rattle.layout.specs.Held.{night_held};
ghost use Rattle.night.specs.Night.{node_of, step_price, link_price};

use layout::PlanFile;

// What subject p is paid for node i itself: nothing where it is a leaf.
pub(crate) fn paid(file: &PlanFile<'_>, i: usize, p: u8) -> u64
    ensures { result ≡ (if eqb (node_of (night_held file.now) i).kind 0 then 0 else step_price (night_held file.now) i p) }
{
    if file.node(i).kind == night::LEAF {
        0
    } else {
        u64::from(file.step_price(i, p as usize))
    }
}

// What it costs to hand this size from one subject to another: the factors are of 32 bits, so the product fits.
pub(crate) fn handed(file: &PlanFile<'_>, size: u32, from: u8, to: u8) -> u64
    ensures { result ≡ size * link_price (night_held file.now) from to }
{
    u64::from(size) * u64::from(file.link_price(from as usize, to as usize))
}
