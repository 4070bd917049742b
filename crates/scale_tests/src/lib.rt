#![tactic(auto)]

// Tests of the scales, beside them, so that a check of the scales does not wait for them.
#[cfg(test)]
mod tests;
