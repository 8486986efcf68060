//! The manifests of workspaces, found in folders; which folders are members of a workspace: globs, and what is
//! excluded; and what packages inherit from the root of their workspace.
//!
//! The globs are those of Cargo's reference, "The members and exclude fields" of workspaces, which are the ones of the
//! crate `glob`. A path is the names of folders from the root of the workspace on.
#![tactic(auto)]

mod choosing;
mod components;
mod dependencies;
mod dependency_inheritance;
mod documents;
mod finding;
mod folders;
mod glob_matching;
mod lint_inheritance;
mod manifests;
mod member_rules;
mod members;
mod patterns;

pub use components::{CharacterRange, Characters, Component, FolderName, Part};
pub use dependency_inheritance::{
    first_mistyped_addition, first_mistyped_field, inheritance_error, inherits, is_of_2024,
    put_inherited,
};
pub use documents::{Document, ManifestCache};
pub use finding::{
    FoundManifests, ManifestSelection, current_folder_depth, find, put_text, root_of,
};
pub use glob_matching::{Piece, matches_pieces};
pub use lint_inheritance::{InheritableFields, inherits_lints};
pub use manifests::{
    MANIFEST, ancestor_path, folder_of, is_file, join_manifest_path, join_path, parse_table, put,
    simplified_path, table_in, text_in,
};
pub use member_rules::MemberRules;
pub use patterns::{
    GlobError, Pattern, PatternError, folder_names, is_glob, plain_components, some_matches,
};
