//! Tests of what no clause says of expressions and answers: that calls succeed where memory is ample, and
//! worked examples. Rows and queries are those of statements.
#![tactic(auto)]

#[cfg(test)]
mod answers;
#[cfg(test)]
mod blocks;
#[cfg(test)]
mod expressions;
#[cfg(test)]
mod fitting;
#[cfg(test)]
mod given;
