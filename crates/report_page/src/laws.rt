//! What holds of escaped text, as a function that does nothing.
ghost use Rattle.std.specs.Prelude.{◌≡◌, ℕ, List, true};
ghost use Rattle.std.specs.List.{list_all};
ghost use Rattle.report_page.specs.Escapes.{escaped, is_plain};

/// Escaped text has no byte that begins or ends a tag, or ends the value of an attribute.
pub fn escaped_text_has_no_markup()
    ensures { (text : List ℕ) → list_all is_plain (escaped text) ≡ true }
{}
