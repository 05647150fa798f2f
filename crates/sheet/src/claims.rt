//! Claims, line by line.

ghost use Rattle.std.specs.Prelude.{◌≡◌, ◌≤◌, IfOk};
ghost use Rattle.sheet.specs.Reading.{Moves, claim_at, claim_eats, claim_form, claim_word, claims_from, claims_read, reader_claims, scope_at, state, stepped};
ghost use Rattle.words.specs.Words.{left};

use crate::reader::Reader;
use forms::{Item, Next, same_word};
use graph::MODE_LIMIT;
use logic::{CLAIM_LIMIT, Claim, Scope};
use words::{Fault, Reason};

// The greatest number of row brackets that may be open at once.
const DEPTH_LIMIT: u8 = 16;

impl<'a, 's> Reader<'a, 's> {
    // All lines to the text's end.
    #[tactic(auto, unfolding(crate::specs::Reading::claims_from))]
    pub(crate) fn claims(&mut self) -> Result<(), Fault>
        ensures reads { claims_read result (state self.new) (reader_claims self.new) ≡ claims_from (reader_claims self.old) (state self.old) }
        ensures same_sheet { self.new.sheet.ghost_name ≡ self.old.sheet.ghost_name }
    {
        while let Some(claim) = self.claim()? {
            let _ = self.sheet.push_claim(claim);
        }
        Ok(())
    }

    // The next line, or none where the text has ended.
    fn claim(&mut self) -> Result<Option<Claim>, Fault>
        ensures reads { stepped result (state self.new) ≡ claim_at (reader_claims self.old) (state self.old) }
        ensures same_sheet { self.new.sheet.ghost_name ≡ self.old.sheet.ghost_name }
        ensures claims { reader_claims self.new ≡ reader_claims self.old }
        ensures eats { IfOk result (λ c. claim_eats c (left self.new.forms.words) (left self.old.forms.words)) }
    {
        match self.forms.next_form()? {
            Next::Form => Ok(Some(self.claim_form()?)),
            Next::End(_) => Ok(None),
        }
    }

    // A claim, after its bracket.
    fn claim_form(&mut self) -> Result<Claim, Fault>
        ensures reads { stepped result (state self.new) ≡ claim_form (reader_claims self.old) (state self.old) }
        ensures moves { Moves self.old self.new }
    {
        self.claim_word()?;
        let scope = self.scope()?;
        let row = self.formula(DEPTH_LIMIT)?;
        self.forms.form_end()?;
        Ok(Claim { scope, row })
    }

    // The word of a claim's line, where there is room for one more claim.
    fn claim_word(&mut self) -> Result<(), Fault>
        ensures reads { stepped result (state self.new) ≡ claim_word (reader_claims self.old) (state self.old) }
        ensures moves { Moves self.old self.new }
    {
        let name = self.forms.name()?;
        if !same_word(name.value, b"claim") {
            return Err(self.misplaced(name.place));
        }
        if self.sheet.claims().len() < CLAIM_LIMIT {
            Ok(())
        } else {
            Err(self.beyond(Reason::TooMany, name.place))
        }
    }

    // The modes that a claim names.
    fn scope(&mut self) -> Result<Scope, Fault>
        ensures reads { stepped result (state self.new) ≡ scope_at (state self.old) }
        ensures moves { Moves self.old self.new }
    {
        match self.forms.item()? {
            Item::Name(name) if same_word(name.value, b"all") => Ok(Scope::All),
            Item::Name(name) => Err(self.misplaced(name.place)),
            // A cast, since the guard is the test, which `try_from` would make again.
            Item::Number(n) if n.value < u16::from(MODE_LIMIT) => Ok(Scope::Mode(n.value as u8)),
            Item::Number(n) => Err(self.beyond(Reason::OutOfRange, n.place)),
        }
    }
}
