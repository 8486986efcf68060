//! The report of `graph` on the output of `cargo metadata`.

use cargo_platform::printable_text;
use graph_answers::cyclonedx_report::{BomContext, format_conflict, show_bill};
use graph_answers::{
    Audit, AuditPolicy, GivenPolicy, GraphNames, arguments_by_policy, exclude, failing_changes,
    findings_in, page_of, policy_of, show_changes, show_licences,
};
use graph_lines::show;
use graph_queries::graph::Graph;
use graph_queries::query::{GraphArguments, GraphQuery, argument_error};
use graph_queries::reading::{GraphDocument, Rejected, document_of, graph_of, graph_of_json};
use key_answers::answer::{Answer, QueryError, Status, answer_or_error};
use selected_targets::{TableSelection, group_targets};
use serde_json::Value;
use std::alloc::{AllocError, Global};

/// The output, and the HTML page if one is requested and there is an answer.
#[derive(Drop)]
pub struct Report {
    pub answer: Answer,
    pub page: Option<String>,
}

impl Report {
    /// Returns a report without a page.
    fn without_page(answer: Answer) -> Report {
        Report { answer, page: None }
    }
}

/// The arguments after they are checked.
#[derive(Drop)]
struct Request<'a, 'b> {
    query: GraphQuery<'a>,
    /// The targets of `--facts-of` and `--target-spec`.
    table: Option<TableSelection<'a>>,
    kind: Kind<'a, 'b>,
}

/// The report on a graph, if it is not what `--show` selects.
#[derive(Drop)]
struct Kind<'a, 'b> {
    audit: Option<Audit<'a>>,
    bill: Option<BomContext<'b>>,
}

/// Checks the arguments, with the policy if there is one.
fn request_of<'a, 'b>(
    alloc: Global,
    arguments: &GraphArguments<'a>,
    bill: Option<BomContext<'b>>,
    policy: Option<AuditPolicy>,
) -> Result<Request<'a, 'b>, QueryError> {
    if bill.is_some() {
        if let Some(text) = format_conflict(arguments) {
            return Err(argument_error(alloc, text));
        }
    }
    let query = GraphQuery::of(alloc, arguments)?;
    let table = match arguments.facts_of {
        Some((file, table)) => {
            Some(TableSelection::of(alloc, file, table, arguments.targets, arguments.host)?)
        }
        None => None,
    };
    Ok(Request {
        query,
        table,
        kind: Kind {
            audit: Audit::of(alloc, arguments, policy)?,
            bill,
        },
    })
}

/// Returns the report on a graph.
fn report_on_graph(
    alloc: Global,
    file: &str,
    graph: &Graph<'_>,
    query: &GraphQuery<'_>,
    audit: &Option<Audit<'_>>,
) -> Result<Report, AllocError> {
    let answer = match audit {
        Some(audit) => show_licences(alloc, &*graph, &*query, audit)?,
        None => show(alloc, file, graph, query)?,
    };
    let made = match query.html {
        Some(made) if answer.status != Status::Unusable => made,
        _ => return Ok(Report::without_page(answer)),
    };
    let reported = findings_in(alloc, graph, query, audit)?;
    let page = page_of(alloc, graph, query, made, &reported)?;
    Ok(Report {
        answer,
        page: Some(page),
    })
}

/// Returns the bill of materials of a graph if one is requested, or else the report on the graph.
fn report_of_kind<'a>(
    alloc: Global,
    (file, document): (&str, &'a Value),
    graph: &Graph<'a>,
    query: &GraphQuery<'_>,
    kind: &Kind<'_, '_>,
) -> Result<Report, Rejected> {
    match &kind.bill {
        Some(bill) => {
            let answer = show_bill(alloc, document, graph, query, bill)?;
            Ok(Report::without_page(answer))
        }
        None => Ok(report_on_graph(alloc, file, graph, query, &kind.audit)?),
    }
}

/// Returns the report on a document that was parsed as JSON.
fn report_on_document(
    alloc: Global,
    file: &str,
    document: &Value,
    request: Request<'_, '_>,
) -> Result<Report, Rejected> {
    let Request { query, table, kind } = request;
    let source = (file, document);
    let mut input = GraphDocument::of(alloc, document, query.packages)?;
    if let Some(audit) = &kind.audit {
        exclude(alloc, &mut input.linked, audit.excluded())?;
    }
    match table {
        Some(table) => {
            let GraphDocument {
                document,
                metadata,
                mut linked,
                declared,
            } = input;
            let groups = group_targets(alloc, table, &metadata, &mut linked)?;
            let query = query.in_groups(&groups);
            let input = GraphDocument {
                document,
                metadata,
                linked,
                declared,
            };
            let graph = graph_of(alloc, input, &query)?;
            report_of_kind(alloc, source, &graph, &query, &kind)
        }
        None => {
            let graph = graph_of(alloc, input, &query)?;
            report_of_kind(alloc, source, &graph, &query, &kind)
        }
    }
}

/// Returns the result, with the name of the file in the message of an error.
fn of_file<T>(alloc: Global, file: &str, found: Result<T, Rejected>) -> Result<T, QueryError> {
    match found {
        Ok(found) => Ok(found),
        Err(rejected) => Err(rejected.with_whole_message(alloc, file)),
    }
}

/// Returns the report on what has changed since an older output of `cargo metadata`: its name and its text.
fn report_against(
    alloc: Global,
    document: &Value,
    query: &GraphQuery<'_>,
    fail_on: Option<&str>,
    against: (&str, &str),
) -> Result<Report, Rejected> {
    let (old_file, old_text) = against;
    let failing = failing_changes(alloc, fail_on)?;
    let old_file = printable_text(alloc, old_file)?;
    let old_document = of_file(alloc, old_file.as_str(), document_of(alloc, old_text))?;
    let old = graph_of_json(alloc, &old_document, query);
    let old = of_file(alloc, old_file.as_str(), old)?;
    let new = graph_of_json(alloc, document, query)?;
    let answer = show_changes(alloc, &old, &new, query, failing)?;
    Ok(Report::without_page(answer))
}

/// Returns the report on the output of `cargo metadata`, by the policy of the arguments if there is one.
fn report_on_text(
    alloc: Global,
    file: &str,
    text: &str,
    arguments: &GraphArguments<'_>,
    bill: Option<BomContext<'_>>,
) -> Result<Report, QueryError> {
    let Some(policy) = policy_of(alloc, arguments)? else {
        let request = request_of(alloc, arguments, bill, None)?;
        return report_by(alloc, file, text, arguments, request);
    };
    let GivenPolicy { graph, audit } = policy;
    let names = GraphNames::of(alloc, &graph)?;
    let targets = names.targets.as_slice();
    let features = names.features.as_slice();
    let arguments = GraphArguments { ..*arguments };
    let arguments = arguments_by_policy(
        &arguments,
        targets,
        features,
        &graph,
        audit.table.includes_dev,
    );
    let request = request_of(alloc, &arguments, bill, Some(audit))?;
    report_by(alloc, file, text, &arguments, request)
}

/// Returns the report of a request on the output of `cargo metadata`.
fn report_by(
    alloc: Global,
    file: &str,
    text: &str,
    arguments: &GraphArguments<'_>,
    request: Request<'_, '_>,
) -> Result<Report, QueryError> {
    let file = printable_text(alloc, file)?;
    let document = of_file(alloc, file.as_str(), document_of(alloc, text))?;
    let report = match arguments.against {
        Some(against) => report_against(
            alloc,
            &document,
            &request.query,
            arguments.fail_on,
            against,
        ),
        None => report_on_document(alloc, file.as_str(), &document, request),
    };
    of_file(alloc, file.as_str(), report)
}

/// Returns the report on `text`, the output of `cargo metadata`, for the given arguments, or the bill of materials if
/// there is `bill`. Messages name `file` as its source. Invalid arguments and documents are reported in the answer; the
/// call fails only if memory is refused.
pub fn report_on(
    alloc: Global,
    file: &str,
    text: &str,
    arguments: &GraphArguments<'_>,
    bill: Option<BomContext<'_>>,
) -> Result<Report, AllocError> {
    match report_on_text(alloc, file, text, arguments, bill) {
        Ok(report) => Ok(report),
        Err(refusal) => Ok(Report::without_page(answer_or_error(alloc, Err(refusal))?)),
    }
}
