//! Runs: longest stretches of letters and digits, and what they are.

ghost use Rattle.std.specs.Char.{is_ascii_alphabetic, is_ascii_digit};
ghost use Rattle.std.specs.List.{list_all, prefix_len};
ghost use Rattle.std.specs.Prelude.{◌≡◌, ◌-◌, ◌≤◌, ◌==◌, length, IfOk};
ghost use Rattle.words.specs.Words.{number_of, run_length, run_tok, run_token, size};

use crate::fault::Reason;
use crate::token::Token;

// How many spaces stand at the front. The tests of runs are a small function each: within one function the proof of a chain did not close.
pub(crate) fn blank_length(bytes: &[u8]) -> usize
    ensures answer { result ≡ prefix_len (λ b. b == 32) bytes.now }
    ensures bound { result ≤ length bytes.now }
{
    bytes.iter().take_while(|b| **b == b' ').count()
}

// How many letters and digits stand at the front.
pub(crate) fn run_length(bytes: &[u8]) -> usize
    ensures answer { result ≡ run_length bytes.now }
    ensures bound { result ≤ length bytes.now }
{
    bytes
        .iter()
        .take_while(|b| b.is_ascii_alphanumeric())
        .count()
}

// Whether all bytes are digits.
fn all_digits(run: &[u8]) -> bool
    ensures answer { result ≡ list_all is_ascii_digit run.now }
{
    run.iter().all(|b| b.is_ascii_digit())
}

// Whether all bytes are letters.
fn all_letters(run: &[u8]) -> bool
    ensures answer { result ≡ list_all is_ascii_alphabetic run.now }
{
    run.iter().all(|b| b.is_ascii_alphabetic())
}

// The value of a byte as a digit.
fn digit(b: u8) -> u16
    ensures answer { result ≡ b - 48 }
{
    u16::from(b.saturating_sub(b'0'))
}

// The number that a run of digits writes, if it is one.
// Not `parse`, which takes a sign and needless zeros, and wants a `str`.
fn number(run: &[u8]) -> Option<u16>
    ensures answer { result ≡ number_of run.now }
{
    match run {
        [a] => Some(digit(*a)),
        [b'0', _] | [b'0', _, _] => None,
        [a, b] => Some(10 * digit(*a) + digit(*b)),
        [a, b, c] => Some(100 * digit(*a) + 10 * digit(*b) + digit(*c)),
        _ => None,
    }
}

// What a run of letters and digits is.
pub(crate) fn run_token<'a>(run: &'a [u8]) -> Result<Token<'a>, Reason>
    ensures answer { run_tok result ≡ run_token run.now }
    ensures bound { IfOk result (λ t. size t ≤ 1) }
{
    if all_digits(run) {
        let n = number(run).ok_or(Reason::BadNumber)?;
        return Ok(Token::Number(n));
    }
    if run.len() <= 8 && all_letters(run) {
        return Ok(Token::Word(run));
    }
    Err(Reason::BadWord)
}
