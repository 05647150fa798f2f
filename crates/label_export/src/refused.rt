//! Why rows in bytes are not labelled over a table of bytes.

ghost use Rattle.label_export.specs.Refusals.{refused_number};
ghost use Rattle.label_export.specs.declared.refused.Refused.TheVariants as refused;
ghost use Rattle.std.specs.Prelude.{◌≡◌, ◌≢◌};

use std::alloc::AllocError;

// The ground on which rows are not labelled.
#[derive(Clone, Copy, PartialEq, Eq, Debug)]
pub(crate) enum Refused {
    // The bytes are no rows, or more than a sheet has room for.
    NotRows,
    // There is no memory for a sheet.
    NoMemory,
    // The table and the counts make no graph.
    Graph(graph::Refusal),
    // The labeller refuses the rows.
    Labelling(labeller::Refusal),
}

impl Refused {
    // The number by which the ground is known to callers; it is never 0, which says that the rows are labelled.
    pub(crate) fn number(self) -> u8
        ensures answer { result ≡ refused_number self }
        ensures not_labelled { result ≢ 0 }
    {
        match self {
            Refused::NotRows => 1,
            Refused::NoMemory => 2,
            Refused::Graph(refusal) => refusal.number(),
            Refused::Labelling(refusal) => refusal.number(),
        }
    }
}

impl From<AllocError> for Refused {
    ghost from_gives = { λ _ e. e ≡ refused.NoMemory };

    fn from(_e: AllocError) -> Refused {
        Refused::NoMemory
    }
}

impl From<graph::Refusal> for Refused {
    ghost from_gives = { λ refusal e. e ≡ refused.Graph refusal };

    fn from(refusal: graph::Refusal) -> Refused {
        Refused::Graph(refusal)
    }
}

impl From<labeller::Refusal> for Refused {
    ghost from_gives = { λ refusal e. e ≡ refused.Labelling refusal };

    fn from(refusal: labeller::Refusal) -> Refused {
        Refused::Labelling(refusal)
    }
}
