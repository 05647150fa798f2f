//! How a claim sheet is made, filled, read and emptied. Only the making asks for memory.

ghost use Rattle.std.specs.Prelude.{◌≡◌, ◌≤◌, length, IfOk};
ghost use Rattle.logic.specs.Sheets.{Empty, claim_fits, claim_limit, claims_with, next_number, row_limit, rows_with, sheet_claims, sheet_rows};

use crate::bounded::Bounded;
use crate::row::{Claim, Row, RowNumber};
use crate::sheet::Sheet;
use std::alloc::{AllocError, Global};

impl Sheet {
    /// A sheet without rows and claims, where memory for all that it may have is found.
    pub fn new(heap: Global) -> Result<Sheet, AllocError>
        ensures made { IfOk result Empty }
    {
        let rows = Bounded::new(heap)?;
        let claims = Bounded::new(heap)?;
        Ok(Sheet { rows, claims })
    }

    /// The rows, in order; there are no more than the limit.
    pub fn rows(&self) -> &[Row]
        ensures answer { result.now ≡ sheet_rows self.now }
        ensures limit { length result.now ≤ row_limit }
    {
        self.rows.as_slice()
    }

    /// The claims, in order; there are no more than the limit.
    pub fn claims(&self) -> &[Claim]
        ensures answer { result.now ≡ sheet_claims self.now }
        ensures limit { length result.now ≤ claim_limit }
    {
        self.claims.as_slice()
    }

    /// Puts a row at the end, and answers its number. Where there is no room the sheet stays as it is, and there is no number.
    pub fn push_row(&mut self, row: Row) -> Option<RowNumber>
        ensures answer { result ≡ next_number (sheet_rows self.old) }
        ensures rows { sheet_rows self.new ≡ rows_with row (sheet_rows self.old) }
        ensures claims { sheet_claims self.new ≡ sheet_claims self.old }
    {
        let number = self.rows.push(row)?;
        Some(number as u8)
    }

    /// Puts a claim at the end, and answers whether there was room for it. Where there was none the sheet stays as it is.
    // A `bool`, as of a set's `insert`: an error could say no more than that there was no room.
    pub fn push_claim(&mut self, claim: Claim) -> bool
        ensures answer { result ≡ claim_fits (sheet_claims self.old) }
        ensures claims { sheet_claims self.new ≡ claims_with claim (sheet_claims self.old) }
        ensures rows { sheet_rows self.new ≡ sheet_rows self.old }
    {
        self.claims.push(claim).is_some()
    }

    /// Takes all rows and claims away, and keeps the memory.
    pub fn clear(&mut self)
        ensures empty { Empty self.new }
    {
        self.rows.clear();
        self.claims.clear();
    }
}
