//! Decides whether a word is an operator, an identifier, or the name of a licence.

ghost use Rattle.std.specs.Prelude.{◌≡◌, None, Some, MatchOption};
ghost use Rattle.std.specs.List.{list_all};
ghost use Rattle.spdx_expressions.specs.Words.{is_id_byte, is_id_string, is_operator, is_identifier, goes_on};
ghost use Rattle.spdx_expressions.specs.Inside.Reading.{named};
ghost use Rattle.spdx_expressions.specs.Words.{is_own_reference, is_foreign_reference, is_listed, is_name};
ghost use Rattle.spdx_expressions.specs.Words.{ends_with_plus};

/// Returns whether a byte is an ASCII letter, an ASCII digit, `-` or `.`.
fn is_id_byte(byte: u8) -> bool
    ensures { result ≡ is_id_byte byte }
{
    byte.is_ascii_alphanumeric() || byte == b'-' || byte == b'.'
}

/// Returns whether bytes are an `idstring` of the grammar.
fn is_id_string(bytes: &[u8]) -> bool
    ensures { result ≡ is_id_string bytes.now }
{
    !bytes.is_empty() && are_id_bytes(bytes)
}

/// Returns whether each byte may be in an `idstring`.
fn are_id_bytes(bytes: &[u8]) -> bool
    ensures { result ≡ list_all is_id_byte bytes.now }
{
    bytes.iter().all(|b| is_id_byte(*b))
}

/// Returns whether a word is `AND`, `OR` or `WITH`.
fn is_operator(word: &str) -> bool
    ensures { result ≡ is_operator word.now }
{
    word == "AND" || word == "OR" || word == "WITH"
}

/// Returns whether a word is an identifier.
pub(crate) fn is_identifier(word: &str) -> bool
    ensures { result ≡ is_identifier word.now }
{
    is_id_string(word.as_bytes()) && !is_operator(word)
}

/// Returns whether bytes begin with a prefix and have more bytes after it.
fn goes_on(prefix: &[u8], bytes: &[u8]) -> bool
    ensures { result ≡ goes_on prefix.now bytes.now }
{
    bytes.starts_with(prefix) && prefix.len() < bytes.len()
}

/// Returns whether bytes are `LicenseRef-` and an `idstring`.
fn is_own_reference(bytes: &[u8]) -> bool
    ensures { result ≡ is_own_reference bytes.now }
{
    is_id_string(bytes) && goes_on(b"LicenseRef-", bytes)
}

/// Returns whether a name is `DocumentRef-`, an `idstring`, `:`, and `LicenseRef-` with an `idstring`.
#[tactic(auto, using(crate::proofs::Names::no_reference))]
fn is_foreign_reference(name: &str) -> bool
    ensures { result ≡ is_foreign_reference name.now }
{
    match name.split_once(':') {
        Some((document, licence)) => {
            is_id_string(document.as_bytes())
                && goes_on(b"DocumentRef-", document.as_bytes())
                && is_own_reference(licence.as_bytes())
        }
        None => false,
    }
}

/// Returns whether SPDX's list of licences could have a name.
fn is_listed(name: &str) -> bool
    ensures { result ≡ is_listed name.now }
{
    is_identifier(name)
        && !name.as_bytes().starts_with(b"LicenseRef-")
        && !name.as_bytes().starts_with(b"DocumentRef-")
}

/// Returns whether a text is the name of a licence. `or_later` says whether `+` follows it.
fn is_name(or_later: bool, name: &str) -> bool
    ensures { result ≡ is_name or_later name.now }
{
    is_listed(name)
        || (!or_later && (is_own_reference(name.as_bytes()) || is_foreign_reference(name)))
}

/// Returns whether the last byte is `+`.
fn ends_with_plus(bytes: &[u8]) -> bool
    ensures { result ≡ ends_with_plus bytes.now }
{
    !bytes.is_empty() && bytes[bytes.len() - 1] == b'+'
}

/// Returns the name of a licence in a word, if the word is one, and whether `+` follows it.
pub(crate) fn licence_name<'a>(word: &'a str) -> Option<(&'a str, bool)>
    ensures { MatchOption result (named word.now ≡ None)
        (λ r. named word.now ≡ Some (record { name = r.0.now; or_later = r.1; exception = None })) }
{
    let or_later = ends_with_plus(word.as_bytes());
    let name = if or_later {
        &word[..word.len() - 1]
    } else {
        word
    };
    if is_name(or_later, name) {
        Some((name, or_later))
    } else {
        None
    }
}
