//! Values, texts and rows: what a table holds, and the lists that all crates share.
#![tactic(auto)]

mod column;
mod columns;
mod escaping;
mod laws;
mod list;
mod memory;
mod rows;
mod sorting;
mod text;
mod value;

pub use column::Column;
pub use escaping::{escape, text_or_bad_escape, unescape, unescape_undoes_escape};
pub use laws::{
    bytes_are_of_their_number, bytes_tell_summaries_apart, numbers_are_of_their_bytes,
    standing_is_a_summary, summaries_finish, summaries_ignore_the_order, summaries_join,
    values_have_one_summary,
};
pub use list::List;
pub use memory::{NoMemory, PushFault, UnescapeFault};
pub use rows::Rows;
pub use text::Text;
pub use value::{AggKind, Cell, Kind, Value, cell_cmp};
