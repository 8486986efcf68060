//! `--html`: a page of the packages by classes of targets.
//!
//! Each text of the document is formatted as in text output, and written with `push_text`, which escapes HTML markup.

use crate::dates::day_of;
use cargo_platform::printable_text;
use graph_queries::classes::{Class, numbered_classes};
use graph_queries::graph::Graph;
use graph_queries::lines::{format_target_count, format_text, joined_names};
use graph_queries::packages::{ReachingKinds, count_present, kinds_reached};
use graph_queries::query::{GraphQuery, Provenance};
use html_pages::Page;
use known_targets::{RUSTC_VERSION, TargetSet};
use std::alloc::{AllocError, Global};

/// The markup before the title.
const START: &str = "<!doctype html>\n\
    <html lang=\"en\">\n\
    <head>\n\
    <meta charset=\"utf-8\">\n\
    <meta name=\"viewport\" content=\"width=device-width, initial-scale=1\">\n\
    <title>";

/// The markup from the title to the heading. Tables scroll in boxes of their own, in which their heads stay.
const HEAD: &str = "</title>\n\
    <style>\n\
    @page { size: A4 landscape; margin: 12mm; }\n\
    :root { color-scheme: light dark; --line: #7f7f7f66; --there: #2e8b5740; --reported: #b2222240; }\n\
    body { font: 15px/1.5 system-ui, sans-serif; margin: 2rem auto; max-width: 120rem; padding: 0 1rem; }\n\
    div { overflow: auto; max-height: 92vh; }\n\
    table { border-collapse: collapse; font-variant-numeric: tabular-nums; }\n\
    caption { padding: .4rem .6rem; text-align: left; }\n\
    summary { cursor: pointer; font-size: 1.2rem; }\n\
    th, td { border-bottom: 1px solid var(--line); padding: .2rem .6rem; text-align: left; vertical-align: top; }\n\
    thead th { background: Canvas; position: sticky; top: 0; }\n\
    th.class, td.class { min-width: 1.2rem; padding: .2rem .3rem; text-align: center; }\n\
    td.there { background: var(--there); }\n\
    td.reported { background: var(--reported); }\n\
    td:nth-child(2):has(code) { min-width: 18rem; }\n\
    code { font-family: ui-monospace, monospace; overflow-wrap: break-word; }\n\
    tbody tr:hover, tbody tr:target { background: #7f7f7f22; }\n\
    @media print {\n\
    body { font-size: 8pt; margin: 0; max-width: none; padding: 0; }\n\
    div { max-height: none; overflow: visible; }\n\
    details::details-content { content-visibility: visible; height: auto; }\n\
    thead { display: table-header-group; }\n\
    thead th { position: static; }\n\
    tr { break-inside: avoid; }\n\
    th, td { padding: .15rem .4rem; }\n\
    th.class, td.class { min-width: 1.2em; padding: .15rem .1rem; }\n\
    td { print-color-adjust: exact; }\n\
    }\n\
    </style>\n\
    </head>\n\
    <body>\n\
    <h1>";

/// Returns the HTML page of a graph. `reported` has for each package what an audit reports of its licence.
pub fn page_of(
    alloc: Global,
    graph: &Graph<'_>,
    query: &GraphQuery<'_>,
    made: Provenance<'_>,
    reported: &[Option<&'static str>],
) -> Result<String, AllocError> {
    let classes = numbered_classes(alloc, graph, query)?;
    let mut page = Page::new(alloc);
    add_markup(&mut page, START)?;
    push_title(&mut page, alloc, graph)?;
    add_markup(&mut page, HEAD)?;
    push_title(&mut page, alloc, graph)?;
    add_markup(&mut page, "</h1>\n")?;
    push_made(&mut page, alloc, made)?;
    push_summary(&mut page, alloc, graph, query)?;
    push_legend(&mut page, alloc, &classes, query)?;
    push_head(&mut page, alloc, graph, &classes, query)?;
    for row in &rows_of(alloc, graph, query, reported)? {
        add_markup(&mut page, "<tr>")?;
        push_package(&mut page, alloc, graph, row, query)?;
        push_licence(&mut page, alloc, graph, row)?;
        push_features(&mut page, alloc, graph, row, query)?;
        push_dots(&mut page, graph.targets_of(row.index), &classes)?;
        add_markup(&mut page, "</tr>\n")?;
    }
    add_markup(&mut page, "</tbody>\n</table></div>\n</body>\n</html>\n")?;
    Ok(page.into_html())
}

/// Returns the last name of a path.
fn last_name<'a>(path: &'a str) -> &'a str {
    let path = path.trim_end_matches(['/', '\\']);
    match path.rfind(['/', '\\']) {
        Some(at) => path.get(at.saturating_add(1)..).unwrap_or(path),
        None => path,
    }
}

/// Writes the title, with the name of the workspace's folder.
fn push_title(page: &mut Page, alloc: Global, graph: &Graph<'_>) -> Result<(), AllocError> {
    let name = last_name(graph.workspace.unwrap_or(""));
    if name.is_empty() {
        return add_markup(page, "Packages by targets");
    }
    push_shown(page, alloc, name)?;
    add_markup(page, ": packages by targets")
}

/// Writes the command that made the page, and the date.
fn push_made(page: &mut Page, alloc: Global, made: Provenance<'_>) -> Result<(), AllocError> {
    add_markup(page, "<p class=\"made\">Made by <code>")?;
    let command = printable_text(alloc, made.command)?;
    add_text(page, command.as_str())?;
    add_markup(page, "</code>")?;
    let day = match made.seconds {
        Some(seconds) => day_of(alloc, seconds)?,
        None => None,
    };
    if let Some(day) = day {
        add_markup(page, " on ")?;
        add_text(page, day.as_str())?;
    }
    add_markup(page, ".</p>\n")
}

/// Writes markup. This call has no clause, so that the prover takes a tenth of the time.
fn add_markup(page: &mut Page, markup: &'static str) -> Result<(), AllocError> {
    page.push_markup(markup)
}

/// Writes a text.
fn add_text(page: &mut Page, text: &str) -> Result<(), AllocError> {
    page.push_text(text)
}

/// Writes a number.
fn push_number(page: &mut Page, alloc: Global, number: usize) -> Result<(), AllocError> {
    let text = format!(in alloc; "{number}")?;
    add_text(page, text.as_str())
}

/// Returns the source of the targets: the name of a file, or the release of rustc.
fn source_of(alloc: Global, query: &GraphQuery<'_>) -> Result<String, AllocError> {
    match query.groups {
        Some(groups) => String::from_str(alloc, groups.file()),
        None => format!(in alloc; "rustc {RUSTC_VERSION}"),
    }
}

/// Writes the number of packages and the number of targets that the page describes.
fn push_summary(
    page: &mut Page,
    alloc: Global,
    graph: &Graph<'_>,
    query: &GraphQuery<'_>,
) -> Result<(), AllocError> {
    let all = graph.order.len();
    let count = count_present(graph, query);
    let targets = format_target_count(alloc, query.count)?;
    let source = source_of(alloc, query)?;
    let text = format!(in alloc;
        "{count} of {all} packages are in the build, on some of {targets} of {source}."
    )?;
    add_markup(page, "<p>")?;
    add_text(page, text.as_str())?;
    add_markup(
        page,
        " Targets that no package tells apart make a class.</p>\n",
    )
}

/// Writes the table of the classes, each with its number, its condition and its targets, folded.
fn push_legend(
    page: &mut Page,
    alloc: Global,
    classes: &[Class],
    query: &GraphQuery<'_>,
) -> Result<(), AllocError> {
    add_markup(page, "<details>\n<summary>Classes of targets: ")?;
    push_number(page, alloc, classes.len())?;
    add_markup(
        page,
        "</summary>\n<div><table>\n<caption>On the targets of a class, the same packages are in the build.</caption>\n\
         <thead><tr><th scope=\"col\">Class</th><th scope=\"col\">Where</th><th scope=\"col\">Targets</th></tr>\
         </thead>\n<tbody>\n",
    )?;
    for class in classes {
        push_class(page, alloc, class, query)?;
    }
    add_markup(page, "</tbody>\n</table></div>\n</details>\n")
}

/// Writes the row of a class.
fn push_class(
    page: &mut Page,
    alloc: Global,
    class: &Class,
    query: &GraphQuery<'_>,
) -> Result<(), AllocError> {
    add_markup(page, "<tr id=\"class-")?;
    push_number(page, alloc, class.number)?;
    add_markup(page, "\"><th class=\"class\" scope=\"row\">")?;
    push_number(page, alloc, class.number)?;
    add_markup(page, "</th><td><code>")?;
    if let Some(condition) = &class.condition {
        let condition = printable_text(alloc, condition.as_str())?;
        add_text(page, condition.as_str())?;
    }
    add_markup(page, "</code></td><td>")?;
    let count = format_target_count(alloc, query.count_of(class.targets))?;
    add_text(page, count.as_str())?;
    add_markup(page, ": <code>")?;
    let names = joined_names(alloc, class.targets, query)?;
    add_text(page, names.as_str())?;
    add_markup(page, "</code></td></tr>\n")
}

/// Writes the head of a class's column: its number, which links to its row, with its targets as a tooltip.
fn push_class_head(
    page: &mut Page,
    alloc: Global,
    class: &Class,
    query: &GraphQuery<'_>,
) -> Result<(), AllocError> {
    let count = format_target_count(alloc, query.count_of(class.targets))?;
    add_markup(page, "<th class=\"class\" scope=\"col\"><a href=\"#class-")?;
    push_number(page, alloc, class.number)?;
    add_markup(page, "\" title=\"")?;
    add_text(page, count.as_str())?;
    if let Some(condition) = &class.condition {
        let condition = printable_text(alloc, condition.as_str())?;
        add_markup(page, " where ")?;
        add_text(page, condition.as_str())?;
    }
    add_markup(page, "\">")?;
    push_number(page, alloc, class.number)?;
    add_markup(page, "</a></th>")
}

/// A row of the table of packages.
#[derive(Clone, Copy, Drop)]
struct Row {
    index: usize,
    reached: ReachingKinds,
    /// What an audit reports of the package's licence.
    reported: Option<&'static str>,
}

/// Returns the rows of the table of packages.
fn rows_of(
    alloc: Global,
    graph: &Graph<'_>,
    query: &GraphQuery<'_>,
    reported: &[Option<&'static str>],
) -> Result<Vec<Row>, AllocError> {
    let reached = kinds_reached(alloc, graph, query)?;
    let mut rows = Vec::new(alloc);
    for index in &graph.order {
        if let Some(reached) = reached.get(*index) {
            rows.push(Row {
                index: *index,
                reached: *reached,
                reported: reported.get(*index).copied().unwrap_or(None),
            })?;
        }
    }
    Ok(rows)
}

/// Writes the head of the table of packages.
fn push_head(
    page: &mut Page,
    alloc: Global,
    graph: &Graph<'_>,
    classes: &[Class],
    query: &GraphQuery<'_>,
) -> Result<(), AllocError> {
    add_markup(
        page,
        "<h2>Packages</h2>\n<div><table>\n<caption>A dot says that a package is in the build on the targets of a \
         class.</caption>\n<thead><tr><th scope=\"col\">Package</th><th scope=\"col\">Version</th>\
         <th scope=\"col\">Kinds</th><th scope=\"col\">Side</th><th scope=\"col\">Licence</th>",
    )?;
    if graph.features.is_some() {
        add_markup(
            page,
            "<th scope=\"col\" title=\"on at some of the targets\">Features</th>",
        )?;
    }
    for class in classes {
        push_class_head(page, alloc, class, query)?;
    }
    add_markup(page, "</tr></thead>\n<tbody>\n")
}

/// Writes the first cells of a package: its name, version, kinds and sides.
fn push_package(
    page: &mut Page,
    alloc: Global,
    graph: &Graph<'_>,
    row: &Row,
    query: &GraphQuery<'_>,
) -> Result<(), AllocError> {
    let Some(described) = graph.described(row.index) else {
        return Ok(());
    };
    add_markup(page, "<th scope=\"row\">")?;
    push_shown(page, alloc, described.name)?;
    add_markup(page, "</th><td>")?;
    push_shown(page, alloc, described.version)?;
    if let Some(source) = graph.source(row.index) {
        add_markup(page, " (")?;
        push_shown(page, alloc, source)?;
        add_markup(page, ")")?;
    }
    add_markup(page, "</td><td>")?;
    let kinds = row.reached.words(alloc)?;
    add_text(page, kinds.as_str())?;
    add_markup(page, "</td><td>")?;
    add_markup(
        page,
        graph.built(row.index, query).sides().word().unwrap_or(""),
    )?;
    add_markup(page, "</td>")
}

/// Writes the cell of a package's licence, and what an audit reports of it.
fn push_licence(
    page: &mut Page,
    alloc: Global,
    graph: &Graph<'_>,
    row: &Row,
) -> Result<(), AllocError> {
    let license = match graph.described(row.index) {
        Some(described) => described.license,
        None => None,
    };
    let start = if row.reported.is_some() {
        "<td class=\"reported\">"
    } else {
        "<td>"
    };
    add_markup(page, start)?;
    match license {
        Some(license) => push_shown(page, alloc, license)?,
        None => add_markup(page, "<em>no licence</em>")?,
    }
    if let Some(reported) = row.reported {
        add_markup(page, " <strong>")?;
        add_markup(page, reported)?;
        add_markup(page, "</strong>")?;
    }
    add_markup(page, "</td>")
}

/// Writes the cell of the features of a package that are on at some selected target, if features are resolved.
fn push_features(
    page: &mut Page,
    alloc: Global,
    graph: &Graph<'_>,
    row: &Row,
    query: &GraphQuery<'_>,
) -> Result<(), AllocError> {
    if graph.features.is_none() {
        return Ok(());
    }
    add_markup(page, "<td>")?;
    let mut is_first = true;
    for name in graph.features_on(alloc, row.index, query)? {
        if !is_first {
            add_markup(page, ", ")?;
        }
        is_first = false;
        push_shown(page, alloc, name)?;
    }
    add_markup(page, "</td>")
}

/// Writes the cells of the classes: a dot if a package is in the build on their targets.
fn push_dots(page: &mut Page, targets: TargetSet, classes: &[Class]) -> Result<(), AllocError> {
    for class in classes {
        if class.targets.intersection(targets).is_empty() {
            add_markup(page, "<td class=\"class\"></td>")?;
        } else {
            add_markup(page, "<td class=\"class there\">•</td>")?;
        }
    }
    Ok(())
}

/// Writes a text of the document, formatted as in text output.
fn push_shown(page: &mut Page, alloc: Global, text: &str) -> Result<(), AllocError> {
    let text = format_text(alloc, text)?;
    add_text(page, text.as_str())
}
