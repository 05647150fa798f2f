//! A claim sheet, with memory for all the rows and claims that it may have.

use crate::bounded::Bounded;
use crate::row::{Claim, Row};

/// The greatest number of rows of a sheet.
pub const ROW_LIMIT: usize = 48;

/// The greatest number of claims of a sheet.
pub const CLAIM_LIMIT: usize = 16;

/// Rows, and the claims about them.
#[derive(Drop)]
pub struct Sheet {
    pub(crate) rows: Bounded<Row, ROW_LIMIT>,
    pub(crate) claims: Bounded<Claim, CLAIM_LIMIT>,
}
