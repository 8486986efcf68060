//! Paths of files in memory.

use std::alloc::{AllocError, Global};

/// Returns the components of a path from the root. `..` leaves out the component before it, if there is one.
fn components(alloc: Global, path: &str) -> Result<Vec<&str>, AllocError> {
    let mut left = Vec::new(alloc);
    for component in path.split('/') {
        match component {
            "" | "." => {}
            ".." => {
                let _ = left.pop();
            }
            _ => left.push(component)?,
        }
    }
    Ok(left)
}

/// Returns the path from the root without the components that lead nowhere: `.`, empty ones, and `..` with the one
/// before it. The root is the empty text, and each component follows a slash. A relative path begins at the root.
pub fn plain_path(alloc: Global, path: &str) -> Result<String, AllocError> {
    let mut text = String::new(alloc);
    for component in &components(alloc, path)? {
        text.push_str("/")?;
        text.push_str(component)?;
    }
    Ok(text)
}
