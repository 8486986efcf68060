//! The names and keys of rustc, and those of a fact.

ghost use Rattle.std.specs.Prelude.{◌≡◌, IfOk};
ghost use Rattle.cargo_platform.specs.Trees.{KeyPair, value_of};
ghost use Rattle.cargo_platform.specs.Spelling.{name_in};
ghost use Rattle.partial_facts.specs.Partly.{is_named, names_of};
ghost use Rattle.known_targets.specs.Rows.{plain};
ghost use Rattle.predicate_classes.specs.Classes.{target_features};

use crate::target_features::TARGET_FEATURES;
use cargo_platform::{Cfg, Ident};
use partial_facts::names::is_among;
use std::alloc::{AllocError, Global};

/// The keys that rustc sets with a value, whatever the flags are.
pub const KEYS_WITH_VALUES: [&str; 9] = [
    "target_abi",
    "target_arch",
    "target_endian",
    "target_env",
    "target_family",
    "target_has_atomic",
    "target_os",
    "target_pointer_width",
    "target_vendor",
];

/// The keys whose values depend on flags and profiles.
pub const FLAG_DEPENDENT_KEYS: [&str; 2] = ["panic", "target_feature"];

/// The values that flags give `panic`.
pub const PANIC_VALUES: [&str; 3] = ["abort", "immediate-abort", "unwind"];

/// The names that rustc sets without a value.
pub const NAMES_WITHOUT_VALUE: [&str; 3] = ["debug_assertions", "unix", "windows"];

/// The names that rustc prints, or knows without printing them, only with unstable features.
pub const UNSTABLE_NAMES: [&str; 15] = [
    "contract_checks",
    "emscripten_wasm_eh",
    "miri",
    "overflow_checks",
    "sanitizer_cfi_generalize_pointers",
    "sanitizer_cfi_normalize_integers",
    "target_has_atomic",
    "target_has_atomic_equal_alignment",
    "target_has_atomic_load_store",
    "target_has_reliable_f128",
    "target_has_reliable_f128_math",
    "target_has_reliable_f16",
    "target_has_reliable_f16_math",
    "target_thread_local",
    "ub_checks",
];

/// The keys that rustc prints with a value only with unstable features.
pub const UNSTABLE_KEYS: [&str; 5] = [
    "fmt_debug",
    "relocation_model",
    "sanitize",
    "target_has_atomic_equal_alignment",
    "target_has_atomic_load_store",
];

/// rustc's keys without `target_`, as people write them, and `platform`.
pub const KEYS_WITHOUT_PREFIX: [&str; 10] = [
    "abi",
    "arch",
    "endian",
    "env",
    "family",
    "has_atomic",
    "os",
    "platform",
    "pointer_width",
    "vendor",
];

/// The names by which people refer to settings of a profile. Cargo selects dependencies without a profile.
pub const PROFILE_WORDS: [&str; 3] = ["debug", "opt_level", "release"];

/// Other words for facts of rustc's.
pub const OTHER_WORDS: [&str; 15] = [
    "amd64",
    "arm64",
    "big_endian",
    "bigendian",
    "darwin",
    "little_endian",
    "littleendian",
    "mac",
    "macosx",
    "osx",
    "riscv",
    "win",
    "win32",
    "win64",
    "x64",
];

/// Returns the features that rustc has for some architecture: the values of `target_feature`.
pub fn target_features() -> &'static [&'static str]
    ensures { names_of result.now ≡ target_features }
{
    &TARGET_FEATURES
}

/// Returns whether rustc has the feature for some architecture.
pub fn is_target_feature(name: &str) -> bool
    ensures { result ≡ is_named name.now target_features }
{
    is_among(name, target_features())
}

/// Returns the pair of a key and a value. Fails if memory is refused.
pub fn pair(alloc: Global, key: &str, value: &str) -> Result<Cfg, AllocError>
    ensures { IfOk result (λ c. value_of c ≡ KeyPair (plain key.now) value.now) }
{
    let key = Ident {
        name: String::from_str(alloc, key)?,
        raw: false,
    };
    Ok(Cfg::KeyPair(key, String::from_str(alloc, value)?))
}

/// Returns the name, or the key of a pair.
pub fn name_in(c: &Cfg) -> &str
    ensures { result.now ≡ (name_in (value_of c.now)).name }
{
    match c {
        Cfg::Name(name) | Cfg::KeyPair(name, _) => name.as_str(),
    }
}
