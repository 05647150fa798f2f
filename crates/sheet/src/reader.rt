//! A view over a sheet's text, and the sheet that it is read into.

ghost use Rattle.std.specs.Prelude.{◌≡◌};
ghost use Rattle.sheet.specs.Reading.{state};
ghost use Rattle.words.specs.Numbers.{layer_number, reason_number, refused};

use forms::Forms;
use logic::Sheet;
use words::{Fault, Layer, Place, Reason};

// The forms of the text, to be held to the sheet's limits, and the sheet so far.
#[derive(Drop)]
pub(crate) struct Reader<'a, 's> {
    pub(crate) forms: Forms<'a>,
    pub(crate) sheet: &'s mut Sheet,
}

// Faults are asked of the reader: a shared borrow of its forms alone gets no proof where the reader holds a `&mut` beside them.
impl<'a, 's> Reader<'a, 's> {
    // A fault of the text.
    pub(crate) fn fault(&self, reason: Reason, layer: Layer, place: Place) -> Fault
        ensures answer { refused result ≡ record { number = reason_number reason; text = (state self.now).at.text; layer = layer_number layer; place = place } }
    {
        self.forms.fault(reason, layer, place)
    }

    // The fault of a token that may not stand at its place.
    pub(crate) fn misplaced(&self, place: Place) -> Fault
        ensures answer { refused result ≡ record { number = 4; text = (state self.now).at.text; layer = 2; place = place } }
    {
        self.forms.misplaced(place)
    }

    // The fault of a token that the limits refuse.
    pub(crate) fn beyond(&self, reason: Reason, place: Place) -> Fault
        ensures answer { refused result ≡ record { number = reason_number reason; text = (state self.now).at.text; layer = 3; place = place } }
    {
        self.forms.beyond(reason, place)
    }
}
