// Scales of cost: the kinds of cost by which one selection beats another.
#![tactic(auto)]

mod level;
mod money;
mod one_level;
mod pair;
mod satisfaction;
mod scale;
mod volume;

pub use level::{compare_numbers, read_level};
pub use money::Money;
pub use one_level::OneLevel;
pub use pair::Pair;
pub use satisfaction::Satisfaction;
pub use scale::Scale;
pub use volume::Volume;

// Satisfaction, then volume, then money.
pub type Activation = Pair<Satisfaction, Pair<Volume, Money>>;

// Satisfaction alone.
pub type Netting = Satisfaction;
