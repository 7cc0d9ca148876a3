//! The integer that an item is.

use crate::document::Datum;
use crate::item::Item;

impl<'a> Item<'a> {
    ghost use Rattle.std.specs.Prelude.{◌≡◌, option_map};
    ghost use Rattle.edit_document.specs.ItemViews.{view_of};
    ghost use Rattle.edit_document.specs.Items.{digits_in};

    /// The integer as it is written, if this is one.
    pub fn integer_text(self) -> Option<&'a str>
        ensures { option_map (λ s. s.now) result ≡ digits_in (view_of self.entry) }
    {
        match self.datum() {
            Datum::Integer(text) => Some(text),
            Datum::Text(_) | Datum::Truth(_) | Datum::Inline | Datum::Table | Datum::Tables => None,
            Datum::Float | Datum::DateTime | Datum::Array => None,
        }
    }
}
