//! What is read: a script of lines, and the statement of a body.
pub use pj_grammar::types::{
    Listed, ModeWord, SetWord, Statement, TableWord, Tree, TreeAction, TreeAssign, TreeColumn,
    TreeItem, TreeOp, TreeOrder, TreeProj, TreeSelect, ValueRows,
};
pub use pj_script::types::{Act, Script, ScriptLine, ScriptMode};
