//! Tests of what no clause says of granules: that calls succeed where memory is ample, and bytes that were worked
//! out by hand.
#![tactic(auto)]

#[cfg(test)]
mod granules;
