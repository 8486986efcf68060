// Written by table/make from table/former.txt. Do not edit.

use crate::rows::{FactRow, RenamedRow, TargetRow};

/// The rows of targets.
#[rattlefmt::skip]
pub static TARGETS: [TargetRow; 17] = [
    ("aarch64-fuchsia", (1, 82, 0), (1, 83, 0)),
    ("armv7-apple-ios", (1, 63, 0), (1, 85, 0)),
    ("asmjs-unknown-emscripten", (1, 75, 0), (1, 76, 0)),
    ("avr-unknown-gnu-atmega328", (1, 85, 0), (1, 95, 0)),
    ("i586-pc-nto-qnx700", (1, 85, 0), (1, 95, 0)),
    ("i586-pc-windows-msvc", (1, 86, 0), (1, 87, 0)),
    ("i686-unknown-dragonfly", (1, 40, 0), (1, 41, 0)),
    ("i686-unknown-redox", (1, 85, 1), (1, 86, 0)),
    ("le32-unknown-nacl", (1, 21, 0), (1, 22, 0)),
    ("wasm32-experimental-emscripten", (1, 20, 0), (1, 63, 0)),
    ("wasm32-unknown-wasi", (1, 35, 0), (1, 63, 0)),
    ("wasm32-wasi", (1, 83, 0), (1, 84, 0)),
    ("wasm32-wasi-preview1-threads", (1, 77, 2), (1, 78, 0)),
    ("x86_64-fuchsia", (1, 82, 0), (1, 83, 0)),
    ("x86_64-rumprun-netbsd", (1, 51, 0), (1, 52, 0)),
    ("x86_64-sun-solaris", (1, 75, 0), (1, 76, 0)),
    ("x86_64-unknown-none-linuxkernel", (1, 66, 1), (1, 67, 0)),
];

/// The rows of facts.
#[rattlefmt::skip]
pub static FACTS: [FactRow; 2] = [
    ("target_env", "eabihf", (1, 63, 0), (1, 85, 0)),
    ("target_os", "cloudabi", (1, 49, 0), (1, 50, 0)),
];

/// The rows of renamed targets.
#[rattlefmt::skip]
pub static RENAMED: [RenamedRow; 5] = [
    ("aarch64-fuchsia", "aarch64-unknown-fuchsia"),
    ("i686-unknown-redox", "i586-unknown-redox"),
    ("wasm32-wasi", "wasm32-wasip1"),
    ("wasm32-wasi-preview1-threads", "wasm32-wasip1-threads"),
    ("x86_64-fuchsia", "x86_64-unknown-fuchsia"),
];
