//! Texts that are accepted or rejected, and what trees print.

use cargo_platform::{
    Cfg, CfgExpr, FactsError, JsonError, ParseError, Platform, ReadError, read_facts,
};
use serde_json::Value;
use std::alloc::{AllocError, Global};
use test_rows::bars::{add_text, barred};
use test_rows::fields::Fields;
use test_rows::forms::{self, add_error, add_other, add_printed, add_span, refused, tree, word};
use test_rows::texts::{self, accepted, platform};
use test_rows::{Fault, trees};

/// The maximum number of character reads for each character of a text, and for its end. `.ci/second-reader` takes the
/// number from here.
const LOOKS_A_CHARACTER: u128 = 12;

/// Returns the answer to a row whose words are `fields`. `call` is the part of its kind after the dot.
pub fn answer(alloc: Global, call: &str, fields: &mut Fields<'_>) -> Result<String, Fault> {
    match call {
        "print" => print(alloc, trees::tree(alloc, fields)?),
        "print-target" => print_target(alloc, fields.text(alloc)?),
        _ => of_text(alloc, call, &fields.text(alloc)?),
    }
}

fn of_text(alloc: Global, call: &str, text: &str) -> Result<String, Fault> {
    match call {
        "expr" => expression(alloc, text),
        "fact" => fact(alloc, text),
        "key" => key(alloc, text),
        "facts" => lines(alloc, text),
        "looks" => looks(alloc, text),
        "bounds" => bounds(alloc, text),
        "json" => json(alloc, text),
        "from-json" => from_json(alloc, text),
        "debug" => debug(alloc, text),
        _ => Err(Fault::Row("there is no such kind")),
    }
}

/// Returns the tree of an expression, and what it prints if that is not the text. What it prints and its copy have to
/// have the same tree. The text has to be evaluated as the expression is, or rejected with the same error.
fn expression(alloc: Global, text: &str) -> Result<String, Fault> {
    match CfgExpr::from_str(alloc, text) {
        Ok(e) => read_expression(alloc, &e, text),
        Err(refusal) => {
            let out = refused(alloc, &refusal, text)?;
            refused_again(
                alloc,
                out,
                &refusal,
                CfgExpr::matches_str(alloc, text, &[]),
                text,
            )
        }
    }
}

/// Appends how a rejected text is evaluated, if it is, and with which error it is rejected then, if not with the same.
fn refused_again(
    alloc: Global,
    mut out: String,
    refusal: &ReadError,
    evaluated: Result<bool, ReadError>,
    text: &str,
) -> Result<String, Fault> {
    match evaluated {
        Ok(_) => out.push_str(", but is evaluated")?,
        Err(other) => {
            let again = refused(alloc, &other, text)?;
            add_other(
                &mut out,
                ", but evaluating is ",
                &again,
                &refused(alloc, refusal, text)?,
            )?;
        }
    }
    Ok(out)
}

/// The facts over which each accepted text is evaluated: none, and the name `a`.
fn some_facts(alloc: Global) -> Result<[Cfg; 1], Fault> {
    Ok([accepted(Cfg::from_str(alloc, "a"))?])
}

/// Appends that a text is evaluated otherwise than what was read from it, if it is.
fn add_evaluated(out: &mut String, is_same: bool) -> Result<(), AllocError> {
    if is_same {
        return Ok(());
    }
    out.push_str(", but its text is evaluated otherwise")
}

fn read_expression(alloc: Global, e: &CfgExpr, text: &str) -> Result<String, Fault> {
    let form = tree(alloc, e)?;
    let mut out = word(alloc, &form)?;
    add_again(alloc, &mut out, e, text, &form)?;
    add_copy(alloc, &mut out, e, &form)?;
    let facts = some_facts(alloc)?;
    let none = accepted(CfgExpr::matches_str(alloc, text, &[]))? == e.matches(&[]);
    let some = accepted(CfgExpr::matches_str(alloc, text, &facts))? == e.matches(&facts);
    add_evaluated(&mut out, none && some)?;
    Ok(out)
}

/// Appends what an expression prints, if it is not the text, and the tree of that, if it is not the same.
fn add_again(
    alloc: Global,
    out: &mut String,
    e: &CfgExpr,
    text: &str,
    form: &str,
) -> Result<(), Fault> {
    let printed = forms::printed(alloc, e)?;
    add_other(out, " prints ", &printed, text)?;
    let again = tree(alloc, &texts::expression(alloc, &printed)?)?;
    add_other(out, ", but reads back as ", &again, form)?;
    Ok(())
}

/// Appends the tree of a copy, if it is not the same.
fn add_copy(alloc: Global, out: &mut String, e: &CfgExpr, form: &str) -> Result<(), AllocError> {
    let copy = tree(alloc, &e.clone(alloc)?)?;
    add_other(out, ", but copies as ", &copy, form)
}

fn fact(alloc: Global, text: &str) -> Result<String, Fault> {
    match Cfg::from_str(alloc, text) {
        Ok(fact) => {
            let mut out = String::new(alloc);
            forms::add_value(&mut out, &fact)?;
            add_printed(alloc, &mut out, " prints ", &fact, text)?;
            Ok(out)
        }
        Err(refusal) => refused(alloc, &refusal, text),
    }
}

/// Returns the target or the condition. If a key is rejected with an error whose text is only a part of the key, also
/// returns the span of the error in the key.
fn key(alloc: Global, text: &str) -> Result<String, Fault> {
    match Platform::from_str(alloc, text) {
        Ok(p) => read_key(alloc, &p, text),
        Err(refusal) => {
            let out = refused_key(alloc, &refusal, text)?;
            refused_again(
                alloc,
                out,
                &refusal,
                Platform::matches_str(alloc, text, "a", &[]),
                text,
            )
        }
    }
}

fn read_key(alloc: Global, p: &Platform, text: &str) -> Result<String, Fault> {
    let mut out = forms::platform(alloc, p, text)?;
    let copy = forms::platform(alloc, &p.clone(alloc)?, text)?;
    let form = forms::platform(alloc, p, text)?;
    add_other(&mut out, ", but copies as ", &copy, &form)?;
    let facts = some_facts(alloc)?;
    let none = accepted(Platform::matches_str(alloc, text, "b", &[]))? == p.matches("b", &[]);
    let some = accepted(Platform::matches_str(alloc, text, "a", &facts))? == p.matches("a", &facts);
    add_evaluated(&mut out, none && some)?;
    Ok(out)
}

fn refused_key(alloc: Global, refusal: &ReadError, text: &str) -> Result<String, Fault> {
    let mut out = refused(alloc, refusal, text)?;
    if let ReadError::Parse(error) = refusal {
        add_place(&mut out, error, text)?;
    }
    Ok(out)
}

fn add_place(out: &mut String, error: &ParseError, key: &str) -> Result<(), Fault> {
    if error.orig() != key {
        out.push_str(", in the key")?;
        add_span(out, &error.span_in(key))?;
    }
    if error.span_in("cfg(a)").is_some() && key != "cfg(a)" {
        out.push_str(", but in any key")?;
    }
    Ok(())
}

/// Returns the facts in the lines, or the number of the first line that is not a fact, with its error, and the span of
/// that in the whole text.
fn lines(alloc: Global, text: &str) -> Result<String, Fault> {
    match read_facts(alloc, text) {
        Ok(facts) => Ok(forms::values(alloc, &facts)?),
        Err(refusal) => refused_line(alloc, &refusal, text),
    }
}

fn refused_line(alloc: Global, refusal: &FactsError, text: &str) -> Result<String, Fault> {
    match refusal {
        FactsError::Line { number, error } => {
            let mut out = format!(in alloc; "refused line {number}, of the text")?;
            add_span(&mut out, &refusal.span_in(text))?;
            if refusal.span_in("a\n").is_some() {
                out.push_str(", but in any text")?;
            }
            out.push(',')?;
            add_error(alloc, &mut out, error, text)?;
            let whole = format!(in alloc; "line {number}: {error}")?;
            add_printed(
                alloc,
                &mut out,
                ", but the refusal prints ",
                refusal,
                &whole,
            )?;
            Ok(out)
        }
        FactsError::Memory(_) => Err(Fault::Memory),
    }
}

/// Returns whether a text is accepted, and the number of character reads.
fn counted(alloc: Global, text: &str) -> Result<(bool, u128), Fault> {
    let (read, looks) = CfgExpr::from_str_counted(alloc, text);
    match read {
        Ok(_) => Ok((true, looks.count())),
        Err(ReadError::Parse(_)) => Ok((false, looks.count())),
        Err(ReadError::Memory(_)) => Err(Fault::Memory),
    }
}

fn looks(alloc: Global, text: &str) -> Result<String, Fault> {
    let (is_read, count) = counted(alloc, text)?;
    let word = if is_read { "read" } else { "refused" };
    Ok(format!(in alloc; "{word}, {count} looks")?)
}

/// Returns whether a text is accepted, and the number of character reads if it is out of bounds: an accepted text has
/// at least one read of each character and of its end.
fn bounds(alloc: Global, text: &str) -> Result<String, Fault> {
    let (is_read, count) = counted(alloc, text)?;
    let mut out = word(alloc, if is_read { "read" } else { "refused" })?;
    let each_once = (text.chars().count() as u128).saturating_add(1);
    let most = each_once.saturating_mul(LOOKS_A_CHARACTER);
    if (is_read && count < each_once) || count > most {
        write!(out, ", but {count} looks")?;
    }
    Ok(out)
}

/// Returns the text that is the JSON of a condition. Reading the JSON has to have the same result as parsing that text.
fn json(alloc: Global, text: &str) -> Result<String, Fault> {
    let value = platform(alloc, text)?.to_json(alloc)?;
    match value.as_str() {
        Some(written) => written_json(alloc, &value, written),
        None => Ok(word(alloc, "no text")?),
    }
}

fn written_json(alloc: Global, value: &Value, written: &str) -> Result<String, Fault> {
    let mut out = barred(alloc, written)?;
    let again = from_value(alloc, value)?;
    let wanted = key(alloc, written)?;
    add_other(&mut out, ", but reads back as ", &again, &wanted)?;
    Ok(out)
}

/// Returns what a JSON value stands for. The text is known to be JSON, so that only memory can be lacking.
fn from_json(alloc: Global, json: &str) -> Result<String, Fault> {
    match Value::from_str(alloc, json) {
        Ok(value) => from_value(alloc, &value),
        Err(_) => Err(Fault::Memory),
    }
}

fn from_value(alloc: Global, value: &Value) -> Result<String, Fault> {
    let text = value.as_str().unwrap_or("");
    match Platform::from_json(alloc, value) {
        Ok(p) => Ok(forms::platform(alloc, &p, text)?),
        Err(refusal) => refused_value(alloc, &refusal, text),
    }
}

fn refused_value(alloc: Global, refusal: &JsonError, text: &str) -> Result<String, Fault> {
    match refusal {
        JsonError::NotText => Ok(word(alloc, "no text")?),
        JsonError::Parse(error) => {
            let mut out = word(alloc, "refused")?;
            add_error(alloc, &mut out, error, text)?;
            Ok(out)
        }
        JsonError::Memory(_) => Err(Fault::Memory),
    }
}

/// Returns what a tree that is made by hand prints, also in a condition. Its copy has to be the same.
fn print(alloc: Global, e: CfgExpr) -> Result<String, Fault> {
    let printed = forms::printed(alloc, &e)?;
    let mut out = barred(alloc, &printed)?;
    add_copy(alloc, &mut out, &e, &tree(alloc, &e)?)?;
    add_condition(alloc, &mut out, &Platform::Cfg(e), &printed)?;
    Ok(out)
}

/// Appends what a condition prints, if that is not what its expression prints.
fn add_condition(
    alloc: Global,
    out: &mut String,
    p: &Platform,
    printed: &str,
) -> Result<(), AllocError> {
    let wanted = format!(in alloc; "cfg({printed})")?;
    add_printed(alloc, out, ", but as a condition ", p, &wanted)
}

/// Returns what a target with this name prints.
fn print_target(alloc: Global, name: String) -> Result<String, Fault> {
    let printed = forms::printed(alloc, &Platform::Name(name))?;
    Ok(barred(alloc, &printed)?)
}

fn debug(alloc: Global, text: &str) -> Result<String, Fault> {
    let e = texts::expression(alloc, text)?;
    let printed = format!(in alloc; "{e:?}")?;
    let mut out = String::new(alloc);
    add_text(&mut out, &printed)?;
    Ok(out)
}
