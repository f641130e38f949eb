//! Tests of what no clause says of histories, replies, arguments and runs: that calls succeed where memory is
//! ample, and worked examples.
#![tactic(auto)]

#[cfg(test)]
mod arguments;
#[cfg(test)]
mod blind;
#[cfg(test)]
mod examples;
#[cfg(test)]
mod journals;
#[cfg(test)]
mod plays;
#[cfg(test)]
mod ports;
#[cfg(test)]
mod replies;
#[cfg(test)]
mod tallies;
