// The fitting test: are the amounts allowed, do the areas balance, do the prices fit?
#![tactic(auto)]

mod amounts;
mod balance;
mod candidate;
mod fit;
mod selection;
mod verdict;

pub use verdict::judge;
