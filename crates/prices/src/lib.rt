// The fitting rules: do prices fit an amount?
#![tactic(auto)]

mod rules;

pub use rules::{is_bid_fitting, is_border_fitting, is_demand_fitting};

#[cfg(test)]
mod tests;
