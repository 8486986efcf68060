//! Tests that rows cannot express. For the library, these test holders of facts that users write, errors and kinds of
//! errors that are made by hand, and the equality of tokens. For `platform_answers`, these are runs over readers and
//! writers that follow a script and go wrong. For `html_pages`, `licence_audits`, `toml_spans` and `text_edits`, these
//! are all tests. For `key_answers`, they test lines of JSON, and for `cyclonedx`, package URLs and serial numbers.
//! `test_texts` runs the rows of texts with their answers.
#![tactic(auto)]

#[cfg(test)]
mod audits;
#[cfg(test)]
mod boms;
#[cfg(test)]
mod edits;
#[cfg(test)]
mod errors;
#[cfg(test)]
mod holders;
#[cfg(test)]
mod json_lines;
#[cfg(test)]
mod markup;
#[cfg(test)]
mod runs;
#[cfg(test)]
mod scripted;
#[cfg(test)]
mod spans;
#[cfg(test)]
mod tokens;
#[cfg(test)]
mod toml_names;
