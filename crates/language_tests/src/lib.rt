//! Tests of what no clause says of tokens, scripts, statements and bindings: that calls succeed where memory
//! is ample, and worked examples.
#![tactic(auto)]

#[cfg(test)]
mod bindings;
#[cfg(test)]
mod bodies;
#[cfg(test)]
mod scripts;
#[cfg(test)]
mod tokens;
