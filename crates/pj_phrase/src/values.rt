//! Values and conditions.
mod nots;
pub mod trees;
