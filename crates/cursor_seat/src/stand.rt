//! Where a seat stands among the candidates of its view.

use crate::dropped::before_gone;
use view_laws::Place;

/// Behind which candidate a seat stands, and whether that one is there to be removed.
#[derive(Clone, Copy)]
pub enum Stand {
    /// Behind the candidate at a place, or before the first. There is nothing to remove.
    Behind(Option<Place>),
    /// Behind the candidate at a place, whose item was given, and the place of the candidate before that.
    Gave { before: Option<Place>, at: Place },
}

impl Stand {
    ghost use Rattle.std.specs.Prelude.{◌≡◌};
    ghost use Rattle.cursor_seat.specs.Stands as spec;

    /// The place of the candidate behind which the seat stands.
    pub(crate) fn last(&self) -> Option<Place>
        ensures { result ≡ spec.last_place self.now }
    {
        match self {
            Stand::Behind(last) => *last,
            Stand::Gave { at, .. } => Some(*at),
        }
    }

    /// Where the seat stands once the candidate that was given last is gone: behind the one before it.
    pub(crate) fn behind_gone(&self) -> Stand
        ensures { result ≡ spec.behind_gone self.now }
    {
        match self {
            Stand::Behind(last) => Stand::Behind(*last),
            Stand::Gave { before, at } => Stand::Behind(before_gone(at, before)),
        }
    }
}
