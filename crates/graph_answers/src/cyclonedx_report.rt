//! `--format cyclonedx`: a software bill of materials, as a CycloneDX document.

use crate::components::{ListedPackage, is_root, listed_packages};
use crate::dates::time_of;
use crate::graph::Graph;
use crate::lines::{format_package, format_text};
use crate::query::{GraphArguments, GraphQuery};
use cyclonedx::{
    Bom, BomMetadata, Component, Edge, LockFile, Node, Property, ToolComponent, Tools,
    relations_of, serial_number,
};
use graph_queries::reading::Rejected;
use graph_queries::sides::side_word;
use key_answers::answer::{Answer, Status};
use key_answers::json_lines;
use key_answers::targets::TargetList;
use known_targets::TargetSet;
use serde_json::Value;
use std::alloc::{AllocError, Global};

/// The contents of a bill of materials besides the packages of a graph.
#[derive(Clone, Copy, Drop)]
pub struct BomContext<'a> {
    /// The version of the program.
    pub version: &'a str,
    /// The time in seconds since 1970, if it is set.
    pub seconds: Option<u64>,
    /// The name of the lock file as it is displayed, and its packages.
    pub lock: Option<(&'a str, &'a LockFile)>,
}

/// Returns the message for options that `--format` excludes, if there are any.
pub fn format_conflict(arguments: &GraphArguments<'_>) -> Option<&'static str> {
    let is_audit = arguments.allow.is_some()
        || arguments.allow_file.is_some()
        || arguments.policy.is_some();
    let is_other = arguments.json || arguments.show.is_some() || arguments.html.is_some();
    if is_audit || is_other || arguments.against.is_some() {
        return Some(
            "--format excludes --json, --show, --allow, --allow-file, --policy, --against and --html",
        );
    }
    None
}

/// The reference of the workspace, if it has several roots. No package URL and no id of a package is this text.
const WORKSPACE: &str = "workspace";

/// Returns whether two of the packages have the same package URL.
fn has_twins(alloc: Global, packages: &[ListedPackage<'_>]) -> Result<bool, AllocError> {
    let mut purls = Vec::new(alloc);
    for package in packages {
        purls.push(package.purl.as_str())?;
    }
    purls.sort()?;
    for i in 1..purls.len() {
        if purls[i] == purls[i - 1] {
            return Ok(true);
        }
    }
    Ok(false)
}

/// Returns the references of the packages: their package URLs, or their ids if two package URLs are the same.
fn references_of<'p>(
    alloc: Global,
    packages: &'p [ListedPackage<'_>],
) -> Result<Vec<&'p str>, AllocError> {
    let has_twins = has_twins(alloc, packages)?;
    let mut references = Vec::new(alloc);
    for package in packages {
        references.push(if has_twins {
            package.described.id
        } else {
            package.purl.as_str()
        })?;
    }
    Ok(references)
}

/// Returns the place of each package of a graph among the listed ones.
fn places_of(
    alloc: Global,
    graph: &Graph<'_>,
    packages: &[ListedPackage<'_>],
) -> Result<Vec<usize>, AllocError> {
    let mut places = vec![in alloc; usize::MAX; graph.linked.packages.len()]?;
    for i in 0..packages.len() {
        if let Some(place) = places.get_mut(packages[i].index) {
            *place = i;
        }
    }
    Ok(places)
}

/// Returns the dependencies of a package, with the selected targets on which they are followed.
fn edges_of(
    alloc: Global,
    graph: &Graph<'_>,
    query: &GraphQuery<'_>,
    places: &[usize],
    index: usize,
) -> Result<Vec<Edge>, AllocError> {
    let mut edges = Vec::new(alloc);
    let Some(unit) = graph.linked.packages.get(index) else {
        return Ok(edges);
    };
    for i in 0..unit.dependencies.len() {
        if let Some(to) = places.get(unit.dependencies[i].to).copied() {
            let at = graph.followed(index, i, query).targets();
            edges.push(Edge { to, at })?;
        }
    }
    Ok(edges)
}

/// Returns the place of the only root among the packages, or `None` if there are several.
fn only_root(graph: &Graph<'_>, packages: &[ListedPackage<'_>]) -> Option<usize> {
    let mut root = None;
    for i in 0..packages.len() {
        if is_root(graph, packages[i].index) {
            if root.is_some() {
                return None;
            }
            root = Some(i);
        }
    }
    root
}

/// Returns the workspace as a node that depends on its roots.
fn workspace_node<'n>(
    alloc: Global,
    graph: &Graph<'_>,
    query: &GraphQuery<'_>,
    packages: &[ListedPackage<'_>],
) -> Result<Node<'n>, AllocError> {
    let mut edges = Vec::new(alloc);
    for i in 0..packages.len() {
        let index = packages[i].index;
        if is_root(graph, index) {
            let at = graph.targets_in(index, query);
            edges.push(Edge { to: i, at })?;
        }
    }
    Ok(Node {
        reference: WORKSPACE,
        at: query.targets,
        edges,
    })
}

/// Returns the nodes of a document: the packages, and the workspace behind them unless one of them is the `root`. What
/// the document describes is always in it.
fn nodes_of<'n>(
    alloc: Global,
    graph: &Graph<'_>,
    query: &GraphQuery<'_>,
    packages: &[ListedPackage<'_>],
    references: &[&'n str],
) -> Result<Vec<Node<'n>>, AllocError> {
    let root = only_root(graph, packages);
    let places = places_of(alloc, graph, packages)?;
    let mut nodes = Vec::new(alloc);
    for (i, reference) in references.iter().enumerate() {
        let Some(package) = packages.get(i) else {
            continue;
        };
        let at = graph.targets_in(package.index, query);
        nodes.push(Node {
            reference: *reference,
            at: if root == Some(i) { query.targets } else { at },
            edges: edges_of(alloc, graph, query, &places, package.index)?,
        })?;
    }
    if root.is_none() {
        nodes.push(workspace_node(alloc, graph, query, packages)?)?;
    }
    Ok(nodes)
}

/// Returns texts joined by commas.
fn joined(alloc: Global, texts: &[&str]) -> Result<String, AllocError> {
    let mut value = String::new(alloc);
    for text in texts {
        if !value.is_empty() {
            value.push_str(",")?;
        }
        value.push_str(text)?;
    }
    Ok(value)
}

/// Returns targets as the value of a property: `all` for the selected ones, and else their names, joined by commas.
fn targets_value(
    alloc: Global,
    query: &GraphQuery<'_>,
    targets: TargetSet,
) -> Result<String, AllocError> {
    match query.targets_for_json(alloc, targets)? {
        TargetList::All(_) => String::from_str(alloc, "all"),
        TargetList::Names(names) => joined(alloc, &names),
    }
}

/// Adds a property.
fn add_property(
    properties: &mut Vec<Property>,
    alloc: Global,
    name: &'static str,
    value: &str,
) -> Result<(), AllocError> {
    let value = String::from_str(alloc, value)?;
    properties.push(Property { name, value })?;
    Ok(())
}

/// Returns the properties of a package: its side, and its targets if several are selected.
fn properties_of(
    alloc: Global,
    graph: &Graph<'_>,
    query: &GraphQuery<'_>,
    index: usize,
) -> Result<Vec<Property>, AllocError> {
    let mut properties = Vec::new(alloc);
    let built = graph.built(index, query);
    if let Some(side) = built.sides().word() {
        add_property(&mut properties, alloc, "nevgrasi:side", side)?;
    }
    if query.count > 1 && !built.targets().is_empty() {
        let value = targets_value(alloc, query, built.targets())?;
        add_property(&mut properties, alloc, "nevgrasi:targets", value.as_str())?;
    }
    Ok(properties)
}

/// Returns the names of the selected targets, joined by commas, or `all` if none is selected by name.
fn selected_value(alloc: Global, query: &GraphQuery<'_>) -> Result<String, AllocError> {
    if !query.are_named {
        return String::from_str(alloc, "all");
    }
    joined(alloc, &query.names(alloc, query.targets)?)
}

/// Returns the properties of the document: the targets and the side that are selected.
fn selection_of(alloc: Global, query: &GraphQuery<'_>) -> Result<Vec<Property>, AllocError> {
    let mut properties = Vec::new(alloc);
    if let Some(side) = query.side {
        add_property(&mut properties, alloc, "nevgrasi:side", side_word(side))?;
    }
    let value = selected_value(alloc, query)?;
    add_property(&mut properties, alloc, "nevgrasi:targets", value.as_str())?;
    Ok(properties)
}

/// Returns the component of a package. `reference` is its name in the document.
fn component_of<'a>(
    alloc: Global,
    graph: &Graph<'_>,
    query: &GraphQuery<'_>,
    package: &ListedPackage<'a>,
    reference: &str,
) -> Result<Component<'a>, AllocError> {
    let properties = properties_of(alloc, graph, query, package.index)?;
    package.component(alloc, reference, properties)
}

/// Returns the name of a workspace: that of its folder, if the document has it.
fn workspace_name<'a>(graph: &Graph<'a>) -> &'a str {
    let path = graph.workspace.unwrap_or("");
    let separator = if path.contains('/') { '/' } else { '\\' };
    match path.rsplit(separator).next() {
        Some(name) if !name.is_empty() => name,
        _ => WORKSPACE,
    }
}

/// Returns the component of a workspace with several roots.
fn workspace_component<'a>(alloc: Global, graph: &Graph<'a>) -> Result<Component<'a>, AllocError> {
    Ok(Component {
        kind: "application",
        reference: String::from_str(alloc, WORKSPACE)?,
        name: workspace_name(graph),
        version: None,
        hashes: Vec::new(alloc),
        licenses: Vec::new(alloc),
        purl: None,
        references: Vec::new(alloc),
        properties: Vec::new(alloc),
    })
}

/// Returns the components of the packages in a document, without the one that the document describes.
fn components_of<'a>(
    alloc: Global,
    graph: &Graph<'_>,
    query: &GraphQuery<'_>,
    packages: &[ListedPackage<'a>],
    nodes: &[Node<'_>],
) -> Result<Vec<Component<'a>>, AllocError> {
    let root = only_root(graph, packages);
    let mut components = Vec::new(alloc);
    for i in 0..packages.len() {
        let Some(node) = nodes.get(i) else {
            continue;
        };
        if node.is_included() && root != Some(i) {
            components.push(component_of(alloc, graph, query, &packages[i], node.reference)?)?;
        }
    }
    Ok(components)
}

/// Returns the component of what a document describes: the only root, or the workspace.
fn subject_of<'a>(
    alloc: Global,
    graph: &Graph<'a>,
    query: &GraphQuery<'_>,
    packages: &[ListedPackage<'a>],
    nodes: &[Node<'_>],
) -> Result<Component<'a>, AllocError> {
    if let Some(root) = only_root(graph, packages) {
        if let (Some(package), Some(node)) = (packages.get(root), nodes.get(root)) {
            return component_of(alloc, graph, query, package, node.reference);
        }
    }
    workspace_component(alloc, graph)
}

/// Returns what a document says of itself.
fn metadata_of<'a>(
    alloc: Global,
    query: &GraphQuery<'_>,
    bill: &BomContext<'_>,
    component: Component<'a>,
) -> Result<BomMetadata<'a>, AllocError> {
    let mut programs = Vec::new(alloc);
    programs.push(ToolComponent {
        kind: "application",
        name: "manifest_check",
        version: String::from_str(alloc, bill.version)?,
    })?;
    Ok(BomMetadata {
        timestamp: match bill.seconds {
            Some(seconds) => time_of(alloc, seconds)?,
            None => None,
        },
        tools: Tools {
            components: programs,
        },
        component,
        properties: selection_of(alloc, query)?,
    })
}

/// Returns a document as a line. Its serial number is made from the line without it.
fn printed(alloc: Global, bom: Bom<'_, '_>) -> Result<String, AllocError> {
    let mut bom = bom;
    let mut content = String::new(alloc);
    json_lines::push_line(&mut content, alloc, &bom)?;
    let number = serial_number(alloc, content.as_str().trim_end())?;
    bom.serial_number = Some(number);
    let mut line = String::new(alloc);
    json_lines::push_line(&mut line, alloc, &bom)?;
    Ok(line)
}

/// Returns the document about packages as a line.
fn document_of<'a>(
    alloc: Global,
    graph: &Graph<'a>,
    query: &GraphQuery<'_>,
    bill: &BomContext<'_>,
    packages: &[ListedPackage<'a>],
) -> Result<Answer, AllocError> {
    let references = references_of(alloc, packages)?;
    let nodes = nodes_of(alloc, graph, query, packages, &references)?;
    let component = subject_of(alloc, graph, query, packages, &nodes)?;
    let bom = Bom {
        bom_format: "CycloneDX",
        spec_version: "1.5",
        serial_number: None,
        version: 1,
        metadata: metadata_of(alloc, query, bill, component)?,
        components: components_of(alloc, graph, query, packages, &nodes)?,
        dependencies: relations_of(alloc, &nodes)?,
    };
    Ok(Answer::of(alloc, printed(alloc, bom)?, Status::Fine))
}

/// Returns the message for a package that a lock file lacks.
fn not_locked(
    alloc: Global,
    lock: &str,
    package: &ListedPackage<'_>,
) -> Result<String, AllocError> {
    let format_package = format_package(alloc, &package.described)?;
    let source = format_text(alloc, package.source().unwrap_or(""))?;
    format!(in alloc; "{lock} has no package {format_package} from {source}")
}

/// Rejects the document if the lock file lacks one of its packages that come from registries.
fn reject_unlocked(
    alloc: Global,
    bill: &BomContext<'_>,
    packages: &[ListedPackage<'_>],
) -> Result<(), Rejected> {
    let Some((name, lock)) = bill.lock else {
        return Ok(());
    };
    for package in packages {
        if package.is_lacking_in(lock) {
            return Err(Rejected::Document(not_locked(alloc, name, package)?));
        }
    }
    Ok(())
}

/// Returns the bill of materials of a document's graph as a line.
///
/// # Errors
///
/// Rejects the document if the lock file lacks one of its packages that come from registries. Fails if memory is
/// refused.
pub fn show_bill<'a>(
    alloc: Global,
    document: &'a Value,
    graph: &Graph<'a>,
    query: &GraphQuery<'_>,
    bill: &BomContext<'_>,
) -> Result<Answer, Rejected> {
    let lock = match bill.lock {
        Some((_, lock)) => Some(lock),
        None => None,
    };
    let packages = listed_packages(alloc, graph, document, lock)?;
    reject_unlocked(alloc, bill, &packages)?;
    Ok(document_of(alloc, graph, query, bill, &packages)?)
}
