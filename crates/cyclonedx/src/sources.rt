//! Where packages come from.

/// The registry of crates.io, as Cargo writes it.
const CRATES_IO: &str = "registry+https://github.com/rust-lang/crates.io-index";

/// The same registry, with its sparse protocol.
const SPARSE_CRATES_IO: &str = "sparse+https://index.crates.io/";

/// Where a package comes from.
#[derive(Clone, Copy, Debug, PartialEq, Eq, Drop)]
pub enum Source<'a> {
    /// The registry of crates.io.
    CratesIo,
    /// Another registry, by the URL of its index.
    Registry(&'a str),
    /// A Git repository, by its URL, and a commit of it, if that is known.
    Git(&'a str, Option<&'a str>),
    /// A folder, by its path from that of the workspace.
    Folder(&'a str),
    /// Anything else.
    Other,
}

impl<'a> Source<'a> {
    /// Returns the source that Cargo writes as this text, or `Other` if it is neither a registry nor a Git repository.
    pub fn of(text: &'a str) -> Source<'a> {
        if text == CRATES_IO || text == SPARSE_CRATES_IO {
            return Source::CratesIo;
        }
        match text.split_once('+') {
            Some(("registry" | "sparse", url)) => Source::Registry(url),
            Some(("git", url)) => git_source(url),
            _ => Source::Other,
        }
    }

    /// Returns whether the source is a registry, whose packages have checksums in lock files.
    pub fn is_registry(&self) -> bool {
        matches!(self, Source::CratesIo | Source::Registry(_))
    }
}

/// Returns the source at `URL?QUERY#COMMIT`, of which the query and the commit may be absent.
fn git_source<'a>(text: &'a str) -> Source<'a> {
    let (url, commit) = match text.split_once('#') {
        Some((url, commit)) => (url, Some(commit)),
        None => (text, None),
    };
    match url.split_once('?') {
        Some((url, _)) => Source::Git(url, commit),
        None => Source::Git(url, commit),
    }
}
