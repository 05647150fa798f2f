//! Claims in dynamic logic with converse: the rows of a claim sheet, and what they mean.
#![tactic(auto)]

mod bounded;
mod decided;
mod filling;
mod row;
mod sheet;
mod sort;
mod standing;

/// That truth is decided.
pub use decided::truth_is_decided;
/// Rows and claims.
pub use row::{Claim, Row, RowNumber, Scope};
/// A claim sheet.
pub use sheet::{CLAIM_LIMIT, ROW_LIMIT, Sheet};
/// That rows stand for trees.
pub use standing::rows_stand_for_trees;
