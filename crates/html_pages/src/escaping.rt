//! Escapes text for HTML pages.

ghost use Rattle.std.specs.Prelude.{◌≡◌, ◌++◌, IfOk, OnOk, encode_utf8_all, flat_map, string_bytes};
ghost use Rattle.std.specs.Str.{chars};
ghost use Rattle.html_pages.specs.Escaping.{WritesText, escape};

use std::alloc::{AllocError, Global};

/// Returns the text as it is written on a page: `<`, `>`, `&`, `"` and `'` as entities, and every other character
/// unchanged. So it begins no tag and no entity, does not end the value of an attribute, and a browser shows the text.
pub fn escaped(alloc: Global, text: &str) -> Result<String, AllocError>
    ensures { IfOk result (λ page. WritesText (string_bytes page) text.now) }
{
    let mut page = String::new(alloc);
    push_text(&mut page, text)?;
    Ok(page)
}

/// Appends the escaped text.
pub(crate) fn push_text(page: &mut String, text: &str) -> Result<(), AllocError>
    ensures { OnOk result (string_bytes page.new
        ≡ string_bytes page.old ++ encode_utf8_all (flat_map escape (chars text.now))) }
{
    for c in text.chars() {
        push_character(page, c)?;
    }
    Ok(())
}

/// Appends the escaped character.
fn push_character(page: &mut String, c: char) -> Result<(), AllocError>
    ensures { OnOk result (string_bytes page.new ≡ string_bytes page.old ++ encode_utf8_all (escape c)) }
{
    match c {
        '<' => page.push_str("&lt;"),
        '>' => page.push_str("&gt;"),
        '&' => page.push_str("&amp;"),
        '"' => page.push_str("&quot;"),
        '\'' => page.push_str("&#39;"),
        _ => page.push(c),
    }
}
