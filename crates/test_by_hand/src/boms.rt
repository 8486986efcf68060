//! Package URLs and serial numbers of bills of materials, by hand.

use cyclonedx::{Source, package_url, serial_number};
use std::alloc::Global;
use std::test::Fail;

/// A row of the test of package URLs: the name, the version, the source as Cargo writes it, or none for the folder
/// `crates/a b`, and the package URL.
type Row<'a> = (&'a str, &'a str, Option<&'a str>, &'a str);

/// By the purl specification: the examples of its type `cargo` come first. The characters that are escaped are those of
/// its rules, as in its example `?vcs_url=git%2Bhttps://git.fsfe.org/dxtr/bitwarderl%40cc55108da32`.
const PURLS: [Row<'static>; 8] = [
    (
        "rand",
        "0.7.2",
        Some("registry+https://github.com/rust-lang/crates.io-index"),
        "pkg:cargo/rand@0.7.2",
    ),
    (
        "structopt",
        "0.3.11",
        Some("sparse+https://index.crates.io/"),
        "pkg:cargo/structopt@0.3.11",
    ),
    (
        "a-b_c",
        "1.0.0-rc.1+x.y",
        Some("directory+file:///w"),
        "pkg:cargo/a-b_c@1.0.0-rc.1%2Bx.y",
    ),
    (
        "a@b/c?d#e%f",
        "1",
        Some("local-registry+file:///w"),
        "pkg:cargo/a%40b%2Fc%3Fd%23e%25f@1",
    ),
    (
        "é",
        "1",
        Some("sparse+https://a.example/i"),
        "pkg:cargo/%C3%A9@1?repository_url=https://a.example/i",
    ),
    (
        "a",
        "1",
        Some("registry+ssh://git@a.example/i?x=y&z"),
        "pkg:cargo/a@1?repository_url=ssh://git%40a.example/i%3Fx%3Dy%26z",
    ),
    (
        "a",
        "1",
        Some("git+https://a.example/r.git?branch=main#0123abc"),
        "pkg:cargo/a@1?vcs_url=git%2Bhttps://a.example/r.git%400123abc",
    ),
    (
        "a",
        "1",
        None,
        "pkg:cargo/a@1?download_url=file://crates/a%20b",
    ),
];

#[test]
fn package_urls(rt: HostRuntime) -> Result<(), Fail> {
    let alloc = rt.alloc();
    for (name, version, source, wanted) in PURLS {
        let source = match source {
            Some(text) => Source::of(text),
            None => Source::Folder("crates/a b"),
        };
        let purl = package_url(alloc, name, version, &source)?;
        assert_eq!(rt; purl.as_str(), wanted);
    }
    Ok(())
}

/// Python's `uuid.uuid5(uuid.uuid5(uuid.NAMESPACE_URL, SCHEMA), content)`.
#[test]
fn serial_numbers(rt: HostRuntime) -> Result<(), Fail> {
    let alloc = rt.alloc();
    let rows = [
        ("", "urn:uuid:e9b5979e-58f0-5bc8-b29a-abb3fcdfcce9"),
        ("é", "urn:uuid:7506c46f-d856-5c41-9cfc-100dad57b20a"),
    ];
    for (content, wanted) in rows {
        assert_eq!(rt; serial_number(alloc, content)?.as_str(), wanted);
    }
    Ok(())
}
