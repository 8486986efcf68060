//! Tests of the reports on packages. The rules are those of the page of `spdx_expressions`.

use licence_audits::{
    Exception, Finding, PackageFinding, PackageSpec, Subject, audit, is_unused_entry,
    is_unused_exception,
};
use semver::{Version, VersionReq};
use spdx_expressions::{Licence, ReadError};
use std::alloc::{AllocError, Global};
use std::process::Abort;
use std::test::Fail;

/// A package in the build, with its name, version and licence, and the expected report on it for the list `MIT`, the
/// exception `tool =2.0.0`, and the exception `extra ^1.2`, which allows `MPL-2.0`.
#[derive(Drop)]
struct Row {
    name: &'static str,
    version: &'static str,
    license: Option<&'static str>,
    findings: &'static str,
}

const ROWS: [Row; 10] = [
    Row {
        name: "app",
        version: "1.0.0",
        license: Some("MIT"),
        findings: "",
    },
    Row {
        name: "both",
        version: "1.0.0",
        license: Some("ISC OR mit"),
        findings: "",
    },
    Row {
        name: "each",
        version: "1.0.0",
        license: Some("ISC AND MIT"),
        findings: "not allowed",
    },
    Row {
        name: "none",
        version: "1.0.0",
        license: None,
        findings: "missing",
    },
    Row {
        name: "odd",
        version: "1.0.0",
        license: Some("MIT and ISC"),
        findings: "refused",
    },
    Row {
        name: "tool",
        version: "2.0.0",
        license: None,
        findings: "",
    },
    Row {
        name: "tool",
        version: "2.0.1",
        license: None,
        findings: "missing",
    },
    Row {
        name: "extra",
        version: "1.4.0",
        license: Some("MIT AND MPL-2.0"),
        findings: "",
    },
    Row {
        name: "extra",
        version: "2.0.0",
        license: Some("MIT AND MPL-2.0"),
        findings: "not allowed",
    },
    Row {
        name: "extra",
        version: "1.2.0",
        license: Some("ISC"),
        findings: "not allowed",
    },
];

/// Returns the report on the package at an index, or the empty text if there is none.
fn finding_at(findings: &[PackageFinding], place: usize) -> &'static str {
    for one in findings {
        if one.place == place {
            return match &one.finding {
                Finding::NotAllowed(_) => "not allowed",
                Finding::Missing => "missing",
                Finding::Refused(_) => "refused",
            };
        }
    }
    ""
}

/// Returns the packages, which are in the build or are not.
fn subjects_of(alloc: Global, are_present: bool) -> Result<Vec<Subject<'static>>, AllocError> {
    let mut subjects = Vec::new(alloc);
    for row in &ROWS {
        subjects.push(Subject {
            name: row.name,
            version: Version::parse(alloc, row.version).ok(),
            license: row.license,
            is_present: are_present,
        })?;
    }
    Ok(subjects)
}

/// Returns the licences of a list.
fn list_of(alloc: Global, license: &str) -> Result<Vec<Licence>, AllocError> {
    match Licence::from_str(alloc, license) {
        Ok(licence) => Ok(vec![in alloc; licence]?),
        Err(ReadError::Memory(error)) => Err(error),
        Err(ReadError::Parse(_fault)) => Ok(Vec::new(alloc)),
    }
}

/// Returns an exception for the packages of a name and range.
fn exception_for(
    alloc: Global,
    name: &str,
    range: &str,
    licences: Option<Vec<Licence>>,
) -> Result<Exception, AllocError> {
    let packages = PackageSpec {
        name: String::from_str(alloc, name)?,
        versions: VersionReq::parse(alloc, range).ok(),
    };
    Ok(Exception { packages, licences })
}

/// Returns the reports on the packages, which are in the build or are not.
fn audited(alloc: Global, are_present: bool) -> Result<Vec<PackageFinding>, AllocError> {
    let subjects = subjects_of(alloc, are_present)?;
    let exceptions = [
        exception_for(alloc, "tool", "=2.0.0", None)?,
        exception_for(alloc, "extra", "^1.2", Some(list_of(alloc, "MPL-2.0")?))?,
    ];
    let allowed = list_of(alloc, "MIT")?;
    audit(alloc, &subjects, &exceptions, &allowed)
}

/// An exception, and whether no package needs it.
#[derive(Drop)]
struct Unneeded {
    name: &'static str,
    range: &'static str,
    licence: Option<&'static str>,
    is_unneeded: bool,
}

const UNNEEDED: [Unneeded; 6] = [
    Unneeded {
        name: "tool",
        range: "=2.0.0",
        licence: None,
        is_unneeded: false,
    },
    Unneeded {
        name: "tool",
        range: ">2.0.1",
        licence: None,
        is_unneeded: true,
    },
    Unneeded {
        name: "tools",
        range: "*",
        licence: None,
        is_unneeded: true,
    },
    Unneeded {
        name: "extra",
        range: "^1.2",
        licence: Some("mpl-2.0"),
        is_unneeded: false,
    },
    Unneeded {
        name: "extra",
        range: "*",
        licence: Some("Zlib"),
        is_unneeded: true,
    },
    Unneeded {
        name: "none",
        range: "*",
        licence: Some("MIT"),
        is_unneeded: true,
    },
];

/// Returns whether no package needs an exception.
fn is_unneeded(
    alloc: Global,
    row: &Unneeded,
    subjects: &[Subject<'_>],
) -> Result<bool, AllocError> {
    let licences = match row.licence {
        Some(licence) => Some(list_of(alloc, licence)?),
        None => None,
    };
    let exception = exception_for(alloc, row.name, row.range, licences)?;
    is_unused_exception(alloc, &exception, subjects)
}

/// Asserts the number of reported packages.
fn assert_count(rt: &impl Abort, findings: &[PackageFinding], wanted: usize) {
    assert!(rt; findings.len() == wanted);
}

#[test]
fn tells_what_is_not_allowed(rt: HostRuntime) -> Result<(), Fail> {
    let findings = audited(rt.alloc(), true)?;
    assert_count(&rt, &findings, 6);
    for i in 0..ROWS.len() {
        let found = finding_at(&findings, i);
        assert!(rt; found == ROWS[i].findings, "{i}: {found}");
    }
    Ok(())
}

#[test]
fn what_is_in_no_build_is_not_told(rt: HostRuntime) -> Result<(), Fail> {
    let findings = audited(rt.alloc(), false)?;
    assert_count(&rt, &findings, 0);
    Ok(())
}

#[test]
fn exceptions_that_no_package_needs(rt: HostRuntime) -> Result<(), Fail> {
    let subjects = subjects_of(rt.alloc(), true)?;
    for row in &UNNEEDED {
        let name = row.name;
        let wanted = row.is_unneeded;
        let found = is_unneeded(rt.alloc(), row, &subjects)?;
        assert!(rt; found == wanted, "{name}: {found}");
    }
    Ok(())
}

#[test]
fn packages_in_no_build_need_no_exception(rt: HostRuntime) -> Result<(), Fail> {
    let absent = subjects_of(rt.alloc(), false)?;
    for row in &UNNEEDED {
        let name = row.name;
        let found = is_unneeded(rt.alloc(), row, &absent)?;
        assert!(rt; found, "{name}");
    }
    Ok(())
}

#[test]
fn licences_that_no_package_has(rt: HostRuntime) -> Result<(), Fail> {
    let subjects = subjects_of(rt.alloc(), true)?;
    for (license, wanted) in [
        ("MIT", false),
        ("isc", false),
        ("Zlib", true),
        ("MPL-2.0", false),
    ] {
        let list = list_of(rt.alloc(), license)?;
        let found = is_unused_entry(rt.alloc(), &list, &subjects)?;
        assert!(rt; found == wanted, "{license}: {found}");
    }
    Ok(())
}
