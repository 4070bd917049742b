#![tactic(auto)]

// Tests of the listing, beside it, so that a check of the listing does not wait for them.
#[cfg(test)]
mod tests;
