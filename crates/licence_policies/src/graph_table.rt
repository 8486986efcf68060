//! The table `[graph]`.

use crate::keys::TableKind;
use crate::package_specs::{SpecError, range_of, spec_in_policy, spec_of};
use crate::policy::GraphTable;
use crate::reader::Reader;
use licence_audits::PackageSpec;
use std::alloc::AllocError;
use toml::{Table, Value};

/// Reads the table `[graph]`.
pub fn read_graph(
    policy: &mut GraphTable,
    reader: &mut Reader,
    graph: &Table,
) -> Result<(), AllocError> {
    reader.check_keys(graph, TableKind::Graph, &["graph"])?;
    policy.all_features = reader.flag(graph, &["graph", "all-features"])?;
    policy.no_default_features = reader.flag(graph, &["graph", "no-default-features"])?;
    policy.excludes_dev = reader.flag(graph, &["graph", "exclude-dev"])?;
    read_targets(policy, reader, graph)?;
    read_features(policy, reader, graph)?;
    read_excluded(policy, reader, graph)
}

/// Reads the targets: names, or tables with a name at `triple`.
fn read_targets(
    policy: &mut GraphTable,
    reader: &mut Reader,
    graph: &Table,
) -> Result<(), AllocError> {
    let alloc = reader.alloc;
    let elements = reader.elements(graph, &["graph", "targets"])?;
    for (index, element) in elements.iter().enumerate() {
        let index = format!(in alloc; "{index}")?;
        let path = ["graph", "targets", index.as_str()];
        let name = match element {
            Value::Table(table) => {
                reader.check_keys(table, TableKind::Target, &path)?;
                let name = reader.text(table, &["graph", "targets", index.as_str(), "triple"])?;
                if name.is_none() && table.get("triple").is_none() {
                    reader.reject(&path, "missing key `triple`")?;
                }
                name
            }
            _ => reader.text_of(element, &path)?,
        };
        if let Some(name) = name {
            let at = reader.at(&path)?;
            let name = String::from_str(alloc, name)?;
            policy.targets.push((name, at))?;
        }
    }
    Ok(())
}

/// Reads the features.
fn read_features(
    policy: &mut GraphTable,
    reader: &mut Reader,
    graph: &Table,
) -> Result<(), AllocError> {
    let alloc = reader.alloc;
    let elements = reader.elements(graph, &["graph", "features"])?;
    for (index, element) in elements.iter().enumerate() {
        let index = format!(in alloc; "{index}")?;
        if let Some(name) = reader.text_of(element, &["graph", "features", index.as_str()])? {
            policy.features.push(String::from_str(alloc, name)?)?;
        }
    }
    Ok(())
}

/// Reads the packages that are not in the graph: each as a text, or as a table.
fn read_excluded(
    policy: &mut GraphTable,
    reader: &mut Reader,
    graph: &Table,
) -> Result<(), AllocError> {
    let alloc = reader.alloc;
    let elements = reader.elements(graph, &["graph", "exclude"])?;
    for (index, element) in elements.iter().enumerate() {
        let index = format!(in alloc; "{index}")?;
        let path = ["graph", "exclude", index.as_str()];
        let packages = match element {
            Value::Table(table) => {
                reader.check_keys(table, TableKind::Package, &path)?;
                packages_of(reader, table, ["graph", "exclude", index.as_str()])?
            }
            _ => match reader.text_of(element, &path)? {
                Some(text) => {
                    let packages = spec_in_policy(alloc, text);
                    accepted(reader, packages, &path)?
                }
                None => None,
            },
        };
        if let Some(packages) = packages {
            policy.excluded.push(packages)?;
        }
    }
    Ok(())
}

/// Returns a package specification that was parsed. Rejects any other text.
fn accepted(
    reader: &mut Reader,
    packages: Result<PackageSpec, SpecError>,
    path: &[&str],
) -> Result<Option<PackageSpec>, AllocError> {
    match packages {
        Ok(packages) => Ok(Some(packages)),
        Err(SpecError::NoName) => {
            reader.reject(path, "expected the name of a package")?;
            Ok(None)
        }
        Err(SpecError::NoRange(reason)) => {
            reader.reject(path, reason.as_str())?;
            Ok(None)
        }
        Err(SpecError::Memory(refused)) => Err(refused),
    }
}

/// Returns the packages that a table names, by `crate`, or by `name` and perhaps `version`. `path` is that of the
/// table: the names of its list, and its index.
pub fn packages_of(
    reader: &mut Reader,
    table: &Table,
    path: [&str; 3],
) -> Result<Option<PackageSpec>, AllocError> {
    let alloc = reader.alloc;
    let at_crate = [path[0], path[1], path[2], "crate"];
    if let Some(text) = reader.text(table, &at_crate)? {
        let packages = spec_in_policy(alloc, text);
        return accepted(reader, packages, &at_crate);
    }
    let at_name = [path[0], path[1], path[2], "name"];
    let at_version = [path[0], path[1], path[2], "version"];
    let versions = reader.text(table, &at_version)?;
    let Some(name) = reader.text(table, &at_name)? else {
        if table.get("crate").is_none() && table.get("name").is_none() {
            reader.reject(&path, "missing key `crate`")?;
        }
        return Ok(None);
    };
    let range = match versions {
        Some(versions) => match range_of(alloc, versions) {
            Ok(range) => Some(range),
            Err(error) => return accepted(reader, Err(error), &at_version),
        },
        None => None,
    };
    accepted(reader, spec_of(alloc, name, range), &at_name)
}
