// Whether an amount lies within its limits. An item and its amount are two parameters: the case has the one, and the selection the other.
ghost use Rattle.std.specs.Prelude.{◌≡◌, ◌&&◌, int_le};
ghost use Rattle.market.specs.Selections.{satisfied_allowed, flow_allowed, activated_allowed};

use market::{Bid, Border};

// From 0 to the demand, with the demand's sign. By two comparisons, here and below: of a range whose ends are computed
// the check does not see the ends as whole numbers.
pub fn is_satisfied_allowed(demand: i32, satisfied: i32) -> bool
    ensures { result ≡ satisfied_allowed demand satisfied }
{
    demand.min(0) <= satisfied && satisfied <= demand.max(0)
}

// From minus the backward limit to the forward limit.
pub fn is_flow_allowed(border: Border, flow: i32) -> bool
    ensures { result ≡ flow_allowed border flow }
{
    -i64::from(border.backward) <= i64::from(flow) && i64::from(flow) <= i64::from(border.forward)
}

// From 0 to the volume.
pub fn is_activated_allowed(bid: Bid, activated: u32) -> bool
    ensures { result ≡ activated_allowed bid activated }
{
    activated <= bid.volume
}

// What enters an area is what it has satisfied.
pub fn is_balanced(sum: i64, satisfied: i32) -> bool
    ensures { result ≡ (int_le sum satisfied && int_le satisfied sum) }
{
    sum == i64::from(satisfied)
}
