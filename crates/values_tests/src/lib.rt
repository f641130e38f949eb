//! Tests of what no clause says of values, rows, sources and sinks: that calls succeed where memory is ample,
//! and worked examples.
#![tactic(auto)]

#[cfg(test)]
mod given;
#[cfg(test)]
mod lifted;
#[cfg(test)]
mod states;
#[cfg(test)]
mod transfers;
#[cfg(test)]
mod values;
