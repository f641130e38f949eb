//! What one token is, and lists of names.
pub mod name_lists;
pub mod rest;
pub mod single;
