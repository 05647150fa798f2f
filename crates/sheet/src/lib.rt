//! The text of a claim sheet: read into rows and claims.
#![tactic(auto)]

mod claims;
mod read;
mod reader;
mod rows;

/// Reads a sheet's text into a sheet.
pub use read::read_sheet;
