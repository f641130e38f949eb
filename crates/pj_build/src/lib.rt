//! Drafts of parts, built from rows.
#![tactic(auto)]

mod building;
mod fault;
mod keys;
mod writing;

pub use building::build;
pub use fault::BuildFault;
