//! A page that is written from its beginning to its end.

use crate::escaping::push_text;
use std::alloc::{AllocError, Global};
use std::marker::Model;

/// The part of a page that is written so far.
#[derive(Drop)]
pub struct Page {
    html: String,
}

impl Model for Page {
    ghost use Rattle.std.specs.Prelude.{ℕ, List, string_bytes};

    ghost Value = { List ℕ };

    ghost view = { λ p. string_bytes p.html };
}

impl Page {
    ghost use Rattle.std.specs.Prelude.{◌≡◌, ◌++◌, [], OnOk, string_bytes};
    ghost use Rattle.html_pages.specs.Escaping.{AppendsText};

    /// Creates an empty page.
    pub fn new(alloc: Global) -> Page
        ensures { result ≡ [] }
    {
        Page {
            html: String::new(alloc),
        }
    }

    /// Appends markup unchanged. It is part of the program, so that no text that was read can be passed for it. Fails
    /// only if an allocation fails.
    pub fn push_markup(&mut self, markup: &'static str) -> Result<(), AllocError>
        ensures { OnOk result (self.new ≡ self.old ++ markup.now) }
    {
        self.html.push_str(markup)
    }

    /// Appends any text, escaped as by `escaped`. Fails only if an allocation fails.
    pub fn push_text(&mut self, text: &str) -> Result<(), AllocError>
        ensures { OnOk result (AppendsText self.old text.now self.new) }
    {
        push_text(&mut self.html, text)
    }

    /// Returns the whole page.
    pub fn into_html(self) -> String
        ensures { string_bytes result ≡ self }
    {
        let Page { html } = self;
        html
    }
}
