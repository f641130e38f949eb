//! The types whose names differ from a definition of this crate in the case of one letter alone.
pub use crate::catalog::Catalog;
