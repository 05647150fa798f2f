//! Reading a text form by form.

ghost use Rattle.std.specs.Prelude.{◌≡◌, ◌≤◌, take, IfOk};
ghost use Rattle.forms.specs.Forms.{TakenBy, begun, closed, ended, form_end, form_reading, item_read, itemized, name_read, named, next_eats, next_form, number_in, numbered, opened, start_eats, taken};
ghost use Rattle.words.specs.Numbers.{layer_number, reason_number, refused, text_number};
ghost use Rattle.words.specs.Words.{left, outcome, start, text_limit};

use crate::form::{Forms, Item, Name, Next, Numeral};
use std::ops::Range;
use words::{Fault, Layer, Place, Placed, Reason, Text, Token, Words};

// The clause `shorter` stands at each step: it tells of two states, and an invariant or a ghost field would tell of one.
impl<'a> Forms<'a> {
    /// A view over a text from its first byte on; it looks at no byte past the limit.
    pub fn new(bytes: &'a [u8], text: Text) -> Forms<'a>
        ensures begins { form_reading result ≡ start (take text_limit bytes.now) (text_number text) }
    {
        Forms {
            words: Words::new(bytes, text),
        }
    }

    /// A fault of this text.
    pub fn fault(&self, reason: Reason, layer: Layer, place: Place) -> Fault
        ensures answer { refused result ≡ record { number = reason_number reason; text = (form_reading self.now).text; layer = layer_number layer; place = place } }
    {
        Fault {
            reason,
            text: self.words.text(),
            layer,
            place,
        }
    }

    /// The fault of a token that may not stand at its place.
    pub fn misplaced(&self, place: Place) -> Fault
        ensures answer { refused result ≡ record { number = 4; text = (form_reading self.now).text; layer = 2; place = place } }
    {
        self.fault(Reason::Misplaced, Layer::Forms, place)
    }

    /// The fault of a token that the limits of the text refuse.
    pub fn beyond(&self, reason: Reason, place: Place) -> Fault
        ensures answer { refused result ≡ record { number = reason_number reason; text = (form_reading self.now).text; layer = 3; place = place } }
    {
        self.fault(reason, Layer::Limits, place)
    }

    // What the function picks of the next token; one of which it picks nothing may not stand here.
    fn take<T, F: FnOnce(Placed<Token<'a>>) -> Option<T>>(&mut self, pick: F) -> Result<T, Fault>
        requires callable { F.IsAlwaysCallable pick }
        ensures reads { TakenBy (F.post pick) result (form_reading self.new) (form_reading self.old) }
        ensures shorter { left self.new.words ≤ left self.old.words }
    {
        let t = self.words.next()?;
        // A match: with `ok_or` goals were left open.
        match pick(t) {
            Some(value) => Ok(value),
            None => Err(self.misplaced(t.place)),
        }
    }

    /// An opening bracket, by its place.
    pub fn open(&mut self) -> Result<Place, Fault>
        ensures reads { outcome result (form_reading self.new) ≡ taken opened (form_reading self.old) }
        ensures shorter { left self.new.words ≤ left self.old.words }
    {
        self.take(|t| match t.value {
            Token::Open => Some(t.place),
            _ => None,
        })
    }

    /// A closing bracket, by its place.
    pub fn close(&mut self) -> Result<Place, Fault>
        ensures reads { outcome result (form_reading self.new) ≡ taken closed (form_reading self.old) }
        ensures shorter { left self.new.words ≤ left self.old.words }
    {
        self.take(|t| match t.value {
            Token::Close => Some(t.place),
            _ => None,
        })
    }

    /// A number, with its place.
    pub fn number(&mut self) -> Result<Numeral, Fault>
        ensures reads { outcome result (form_reading self.new) ≡ taken numbered (form_reading self.old) }
        ensures shorter { left self.new.words ≤ left self.old.words }
    {
        self.take(|Placed { value, place }| match value {
            Token::Number(value) => Some(Placed { value, place }),
            _ => None,
        })
    }

    /// A number in the range, which ends below its end.
    pub fn number_in(&mut self, range: Range<u8>) -> Result<u8, Fault>
        ensures reads { outcome result (form_reading self.new) ≡ number_in range.start range.end (form_reading self.old) }
        ensures shorter { left self.new.words ≤ left self.old.words }
    {
        let n = self.number()?;
        // A cast after the test: with `try_from` a goal was left open.
        if (u16::from(range.start)..u16::from(range.end)).contains(&n.value) {
            Ok(n.value as u8)
        } else {
            Err(self.beyond(Reason::OutOfRange, n.place))
        }
    }

    /// A word, with its place.
    pub fn name(&mut self) -> Result<Name<'a>, Fault>
        ensures reads { name_read result (form_reading self.new) ≡ taken named (form_reading self.old) }
        ensures shorter { left self.new.words ≤ left self.old.words }
    {
        self.take(|Placed { value, place }| match value {
            Token::Word(value) => Some(Placed { value, place }),
            _ => None,
        })
    }

    /// A word or a number, with its place.
    pub fn item(&mut self) -> Result<Item<'a>, Fault>
        ensures reads { item_read result (form_reading self.new) ≡ taken itemized (form_reading self.old) }
        ensures shorter { left self.new.words ≤ left self.old.words }
    {
        self.take(|Placed { value, place }| match value {
            Token::Word(value) => Some(Item::Name(Placed { value, place })),
            Token::Number(value) => Some(Item::Number(Placed { value, place })),
            _ => None,
        })
    }

    /// The end of the line, or of the text.
    pub fn line_end(&mut self) -> Result<(), Fault>
        ensures reads { outcome result (form_reading self.new) ≡ taken ended (form_reading self.old) }
        ensures shorter { left self.new.words ≤ left self.old.words }
    {
        self.take(|t| match t.value {
            Token::LineEnd | Token::TextEnd => Some(()),
            _ => None,
        })
    }

    /// The end of a form, and of its line.
    pub fn form_end(&mut self) -> Result<(), Fault>
        ensures reads { outcome result (form_reading self.new) ≡ form_end (form_reading self.old) }
        ensures shorter { left self.new.words ≤ left self.old.words }
    {
        self.close()?;
        self.line_end()
    }

    // What the line begins with, or none where it has ended and another follows.
    // Not by `take`: what it picks would be an option of an option, and a step of `take` promises no fall in bytes.
    fn line_start(&mut self) -> Result<Option<Next>, Fault>
        ensures reads { outcome result (form_reading self.new) ≡ taken begun (form_reading self.old) }
        ensures eats { IfOk result (λ s. start_eats s (left self.new.words) (left self.old.words)) }
    {
        let t = self.words.next()?;
        match t.value {
            Token::Open => Ok(Some(Next::Form)),
            Token::LineEnd => Ok(None),
            Token::TextEnd => Ok(Some(Next::End(t.place))),
            _ => Err(self.misplaced(t.place)),
        }
    }

    /// The next line that is not blank, past its opening bracket, or the text's end.
    #[tactic(auto, unfolding(crate::specs::Forms::next_form))]
    pub fn next_form(&mut self) -> Result<Next, Fault>
        ensures reads { outcome result (form_reading self.new) ≡ next_form (form_reading self.old) }
        ensures eats { IfOk result (λ n. next_eats n (left self.new.words) (left self.old.words)) }
    {
        loop {
            if let Some(next) = self.line_start()? {
                return Ok(next);
            }
        }
    }
}
