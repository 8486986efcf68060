//! The limits of what programs read: how deeply a key may be nested for a stack of 8 MiB, and how many bytes an input
//! may have, so that an endless input is rejected.
#![tactic(auto)]

mod keys;
pub mod laws;
mod texts;

pub use keys::{KeyError, MAX_GROUP_DEPTH, read_key, too_deep_at, too_deep_message};
pub use texts::{
    DEFAULT_LIMIT, InputError, STDIN_PATH, read_file, read_input, read_text, reason_of,
    strip_byte_order_mark,
};
