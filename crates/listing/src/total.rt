// The totals of a case.

// What is satisfied by size, what is activated, half of satisfied minus activated, and the cost.
#[derive(Clone, Copy, PartialEq, Eq, Debug)]
pub struct Totals {
    pub satisfied: u64,
    pub activated: u64,
    pub netted: i64,
    pub cost: i64,
}
