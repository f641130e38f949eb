//! Tests of what no clause says of ports, parts, drafts and reads: that calls succeed where memory is ample, and
//! worked examples.
#![tactic(auto)]

#[cfg(test)]
mod building;
#[cfg(test)]
mod parts;
#[cfg(test)]
mod partsets;
#[cfg(test)]
mod ports;
#[cfg(test)]
mod reads;
