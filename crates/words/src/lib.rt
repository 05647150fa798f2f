//! The words of a text: brackets, numbers, words and line ends, each with its line and column.
#![tactic(auto)]

mod cursor;
mod fault;
mod read;
mod run;
mod token;

/// A view over a text, token by token.
pub use cursor::{TEXT_LIMIT, Words};
/// Why a text is refused and where, with how faults are compared and printed.
pub use fault::{Fault, Layer, Place, Reason, Text};
/// Tokens and their places.
pub use token::{Placed, Token};
