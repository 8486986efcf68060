//! Tests of texts on pages. The entities are those of the HTML standard, "Named character references".

use html_pages::{Page, escaped};
use std::alloc::{AllocError, Global};
use std::process::Abort;
use std::test::Fail;

/// Texts, each with what is written for it.
const ROWS: [(&str, &str); 6] = [
    ("", ""),
    ("serde 1.0.0", "serde 1.0.0"),
    ("</td><script>", "&lt;/td&gt;&lt;script&gt;"),
    ("&lt;", "&amp;lt;"),
    ("\" onload='x", "&quot; onload=&#39;x"),
    ("\u{e9}<\u{1f980}", "\u{e9}&lt;\u{1f980}"),
];

/// Returns a page with a text between two pieces of markup.
fn page_of(alloc: Global, text: &str) -> Result<String, AllocError> {
    let mut page = Page::new(alloc);
    page.push_markup("<p>")?;
    page.push_text(text)?;
    page.push_markup("</p>\n")?;
    Ok(page.into_html())
}

/// Asserts what is written for a text.
fn assert_written(
    rt: &impl Abort,
    alloc: Global,
    text: &str,
    wanted: &str,
) -> Result<(), AllocError> {
    let written = escaped(alloc, text)?;
    assert!(rt; written.as_str() == wanted, "{text}: {written}");
    let page = page_of(alloc, text)?;
    let whole = format!(in alloc; "<p>{wanted}</p>\n")?;
    assert!(rt; page.as_str() == whole.as_str(), "{text}: {page}");
    Ok(())
}

#[test]
fn marks_are_entities(rt: HostRuntime) -> Result<(), Fail> {
    for (text, wanted) in &ROWS {
        assert_written(&rt, rt.alloc(), text, wanted)?;
    }
    Ok(())
}
