//! The forms of a text: lines that hold one bracketed form each, and what may stand at each place of a form.
#![tactic(auto)]

mod form;
mod read;

/// A view over a text, form by form.
pub use form::{Forms, Next};
/// Numbers and words of a text, with their places.
pub use form::{Item, Name, Numeral, same_word};
