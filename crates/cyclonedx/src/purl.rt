//! Package URLs (purl) of type `cargo`.

ghost use Rattle.std.specs.Prelude.{◌≡◌, ◌++◌, IfOk, OnOk, string_bytes};
ghost use Rattle.cyclonedx.specs.Purls.{escape, escape_url, commit_of, git_of, qualifier_of, package_url};

use crate::sources::Source;
use percent_encoding::{AsciiSet, NON_ALPHANUMERIC, ascii_set, percent_encode};
use std::alloc::{AllocError, Global};

/// The ASCII characters that are escaped in the name and the version of a package.
pub const ESCAPED: AsciiSet = ascii_set!(
    NON_ALPHANUMERIC
        .remove(b'-')
        .remove(b'.')
        .remove(b'_')
        .remove(b'~')
);

/// The ASCII characters that are escaped in a URL in a qualifier.
pub const ESCAPED_IN_URL: AsciiSet = ascii_set!(ESCAPED.remove(b':').remove(b'/'));

/// Appends a name or a version with its escapes.
fn push_escaped(purl: &mut String, text: &str) -> Result<(), AllocError>
    ensures { OnOk result (string_bytes purl.new ≡ string_bytes purl.old ++ escape text.now) }
{
    percent_encode(text.as_bytes(), ESCAPED).append_to(purl)
}

/// Appends a URL or a path with its escapes.
fn push_url(purl: &mut String, url: &str) -> Result<(), AllocError>
    ensures { OnOk result (string_bytes purl.new ≡ string_bytes purl.old ++ escape_url url.now) }
{
    percent_encode(url.as_bytes(), ESCAPED_IN_URL).append_to(purl)
}

/// Appends a commit behind the URL of its repository, if the commit is known.
fn push_commit(purl: &mut String, commit: &Option<&str>) -> Result<(), AllocError>
    ensures { OnOk result (string_bytes purl.new ≡ string_bytes purl.old ++ commit_of commit.now) }
{
    match commit {
        Some(commit) => {
            purl.push_str("%40")?;
            push_url(purl, commit)
        }
        None => Ok(()),
    }
}

/// Appends the beginning of a qualifier, and a URL or a path with its escapes.
fn push_start(purl: &mut String, start: &str, url: &str) -> Result<(), AllocError>
    ensures { OnOk result (string_bytes purl.new ≡ string_bytes purl.old ++ (start.now ++ escape_url url.now)) }
{
    purl.push_str(start)?;
    push_url(purl, url)
}

/// Appends the qualifier of a Git repository.
fn push_git(purl: &mut String, url: &str, commit: &Option<&str>) -> Result<(), AllocError>
    ensures { OnOk result (string_bytes purl.new ≡ string_bytes purl.old ++ git_of url.now commit.now) }
{
    push_start(purl, "?vcs_url=git%2B", url)?;
    push_commit(purl, commit)
}

/// Appends the qualifier that says from where a package comes, unless that is crates.io.
fn push_qualifier(purl: &mut String, source: &Source<'_>) -> Result<(), AllocError>
    ensures { OnOk result (string_bytes purl.new ≡ string_bytes purl.old ++ qualifier_of source.now) }
{
    match source {
        Source::CratesIo | Source::Other => Ok(()),
        Source::Registry(url) => push_start(purl, "?repository_url=", url),
        Source::Folder(path) => push_start(purl, "?download_url=file://", path),
        Source::Git(url, commit) => push_git(purl, url, commit),
    }
}

/// Returns the package URL of a package. Fails if memory is refused.
pub fn package_url(
    alloc: Global,
    name: &str,
    version: &str,
    source: &Source<'_>,
) -> Result<String, AllocError>
    // The parts are there with their escapes, and a qualifier for the source.
    ensures { IfOk result (λ purl. string_bytes purl ≡ package_url name.now version.now source.now) }
{
    let mut purl = String::from_str(alloc, "pkg:cargo/")?;
    push_escaped(&mut purl, name)?;
    purl.push_str("@")?;
    push_escaped(&mut purl, version)?;
    push_qualifier(&mut purl, source)?;
    Ok(purl)
}
