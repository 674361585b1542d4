// Text from outside, as it stands in a page.
ghost use Rattle.std.specs.Prelude.{◌≡◌, Some, option_map};
ghost use Rattle.report.specs.Escape.{entity_of, escaped, ReadsBack, Harmless};

use std::fmt;

// The entity that stands for a character that HTML reads as its own, none for
// any other.
pub fn entity_of(character: char) -> Option<&'static str>
    ensures { option_map (λ s. s.now) result ≡ entity_of character }
{
    match character {
        '&' => Some("&amp;"),
        '<' => Some("&lt;"),
        '>' => Some("&gt;"),
        '"' => Some("&quot;"),
        '\'' => Some("&#39;"),
        _ => None,
    }
}

// A text of which nothing can be read as markup.
#[derive(Clone, Copy)]
pub struct Escaped<'a>(pub(crate) &'a str);

// A text as it stands in a page: its escape reads back, and is harmless.
pub fn in_page(text: &str) -> Escaped<'_>
    ensures text { result.0.now ≡ text.now }
    ensures back { ReadsBack }
    ensures harmless { Harmless }
{
    Escaped(text)
}

impl fmt::Display for Escaped<'_> {
    ghost output = { λ x. Some (escaped x.0.now) };

    fn fmt<W: fmt::Write>(&self, f: &mut fmt::Formatter<W>) -> fmt::Result {
        for character in self.0.chars() {
            match entity_of(character) {
                Some(entity) => f.write_str(entity)?,
                None => f.write_char(character)?,
            }
        }
        Ok(())
    }
}
