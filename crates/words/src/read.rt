//! Reading a text token by token.

ghost use Rattle.std.specs.Prelude.{◌≡◌, ◌+◌, ◌≤◌, length, take, drop};
ghost use Rattle.words.specs.Numbers.{refused, text_number};
ghost use Rattle.words.specs.Words.{eaten, left, next_token, reading, run_from, start, text_limit, token_from, token_read, word_fault};

use crate::cursor::{TEXT_LIMIT, Words};
use crate::fault::{Fault, Layer, Place, Reason, Text};
use crate::run::{blank_length, run_length, run_token};
use crate::token::{Placed, Token};

// The clause `shorter` tells of two states at each step, which no invariant can.
impl<'a> Words<'a> {
    /// A view over a text from its first byte on; it looks at no byte past the limit.
    #[tactic(auto, using(std::proofs::lemmas::List::take_min))]
    pub fn new(bytes: &'a [u8], text: Text) -> Words<'a>
        ensures begins { reading result ≡ start (take text_limit bytes.now) (text_number text) }
    {
        Words::at_start(&bytes[..TEXT_LIMIT.min(bytes.len())], text)
    }

    // A view over a text that is not too long. That it is not is asked once in each crate that reads: a type for it would be public.
    fn at_start(rest: &'a [u8], text: Text) -> Words<'a>
        requires { length rest.now ≤ text_limit }
        ensures begins { reading result ≡ start rest.now (text_number text) }
    {
        Words {
            rest,
            place: Place { line: 1, column: 1 },
            text,
        }
    }

    /// The next token, with its place; at the text's end that is its end, again and again.
    #[tactic(auto, unfolding(crate::specs::Words::next_token))]
    pub fn next(&mut self) -> Result<Placed<Token<'a>>, Fault>
        ensures reads { token_read result (reading self.new) ≡ next_token (reading self.old) }
        ensures shorter { left self.new + eaten result ≤ left self.old }
    {
        self.advance(blank_length(self.rest));
        self.token_here()
    }

    // The next n bytes, which stand in one line.
    fn advance(&mut self, n: usize) -> &'a [u8]
        requires { n ≤ length self.old.rest.now }
        ensures part { result.now ≡ take n self.old.rest.now }
        ensures rest { self.new.rest.now ≡ drop n self.old.rest.now }
        ensures left { left self.new + n ≡ left self.old }
        ensures line { self.new.place.line ≡ self.old.place.line }
        ensures column { self.new.place.column ≡ self.old.place.column + n }
        ensures kind { self.new.text ≡ self.old.text }
    {
        let (part, rest) = self.rest.split_at(n);
        self.rest = rest;
        self.place.column += n as u16;
        part
    }

    // The token that begins at this byte.
    fn token_here(&mut self) -> Result<Placed<Token<'a>>, Fault>
        ensures reads { token_read result (reading self.new) ≡ token_from self.old.rest.now (reading self.old) }
        ensures shorter { left self.new + eaten result ≤ left self.old }
    {
        let place = self.place;
        let value = match self.rest.first() {
            None => Token::TextEnd,
            Some(b'\n') => {
                self.advance(1);
                self.place.line += 1;
                self.place.column = 1;
                Token::LineEnd
            }
            Some(b'(') => {
                self.advance(1);
                Token::Open
            }
            Some(b')') => {
                self.advance(1);
                Token::Close
            }
            Some(_) => return self.run_here(),
        };
        Ok(Placed { value, place })
    }

    // The run that begins at this byte.
    fn run_here(&mut self) -> Result<Placed<Token<'a>>, Fault>
        ensures reads { token_read result (reading self.new) ≡ run_from (reading self.old) }
        ensures shorter { left self.new + eaten result ≤ left self.old }
    {
        let place = self.place;
        let n = run_length(self.rest);
        if n == 0 {
            return Err(self.fault(Reason::BadByte, place));
        }
        let run = self.advance(n);
        // A match: with `map_err` a goal was left open.
        match run_token(run) {
            Ok(value) => Ok(Placed { value, place }),
            Err(reason) => Err(self.fault(reason, place)),
        }
    }

    // A fault of words at a place.
    fn fault(&self, reason: Reason, place: Place) -> Fault
        ensures answer { refused result ≡ word_fault reason (text_number self.now.text) place }
    {
        Fault {
            reason,
            text: self.text,
            layer: Layer::Words,
            place,
        }
    }
}
