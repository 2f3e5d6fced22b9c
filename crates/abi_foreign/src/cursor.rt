//! Where a listing is read.

ghost use Rattle.std.specs.Prelude.{◌≡◌, ◌+◌, ◌<◌, ◌^◌};

use crate::listing_stop::{ListingRule, ListingStop};

/// What is left of a listing, and the number of its first line, from 1.
#[derive(Clone, Copy)]
pub(crate) struct Cursor<'a> {
    pub rest: &'a [u8],
    pub line: u32,
}

impl<'a> Cursor<'a> {
    /// The line here is not of the form that stands at its place.
    pub(crate) fn refused(&self) -> ListingStop
        ensures { result ≡ ListingStop.Bad ListingRule.Form self.now.line }
    {
        ListingStop::Bad(ListingRule::Form, self.line)
    }

    /// The next line, which begins with the rest.
    pub(crate) fn next(&self, rest: &'a [u8]) -> Cursor<'a>
        requires { self.now.line + 1 < 2 ^ 32 }
        ensures rest { result.rest.now ≡ rest.now }
        ensures line { result.line ≡ self.now.line + 1 }
    {
        Cursor {
            rest,
            line: self.line + 1,
        }
    }
}
