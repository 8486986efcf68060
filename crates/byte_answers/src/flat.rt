//! Conditions and facts as bytes.

ghost use Rattle.std.specs.Prelude.{◌≡◌, ◌≤◌, ◌+◌, ◌++◌, OnOk, IfOk, MatchOption, map, length, flat_map};
ghost use Rattle.cargo_platform.specs.Trees.{value_of, tree_of, trees_of, condition_of};
ghost use Rattle.cargo_platform.specs.ExpressionSizes.{node_count, node_counts};
ghost use Rattle.byte_answers.specs.Flat.{numbers, text_record, flat_value, flat, flats, flat_condition};

use cargo_platform::{Cfg, CfgExpr, Platform};
use std::alloc::{AllocError, Global};
use std::slice;

pub(crate) const NAME: u8 = 0;

pub(crate) const RAW_NAME: u8 = 1;

pub(crate) const PAIR: u8 = 2;

pub(crate) const RAW_PAIR: u8 = 3;

pub(crate) const TRUE: u8 = 4;

pub(crate) const FALSE: u8 = 5;

pub(crate) const NOT: u8 = 6;

pub(crate) const ALL: u8 = 7;

pub(crate) const ANY: u8 = 8;

pub(crate) const TARGET: u8 = 9;

/// Appends two numbers and a tag.
fn push_numbers(out: &mut Vec<u8>, a: usize, b: usize, tag: u8) -> Result<(), AllocError>
    ensures { OnOk result (out.new.items ≡ out.old.items ++ numbers a b tag) }
{
    out.extend_from_slice(&a.to_le_bytes())?;
    out.extend_from_slice(&b.to_le_bytes())?;
    out.push(tag)?;
    Ok(())
}

/// Appends two texts, their lengths and a tag.
fn push_texts(out: &mut Vec<u8>, first: &str, second: &str, tag: u8) -> Result<(), AllocError>
    ensures { OnOk result (out.new.items ≡ out.old.items ++ text_record first.now second.now tag) }
{
    out.extend_from_slice(first.as_bytes())?;
    out.extend_from_slice(second.as_bytes())?;
    push_numbers(out, first.len(), second.len(), tag)
}

/// Appends a name or a pair.
pub(crate) fn push_value(out: &mut Vec<u8>, c: &Cfg) -> Result<(), AllocError>
    ensures { OnOk result (out.new.items ≡ out.old.items ++ flat_value (value_of c.now)) }
{
    match c {
        Cfg::Name(name) => {
            let tag = if name.raw { RAW_NAME } else { NAME };
            push_texts(out, name.as_str(), "", tag)
        }
        Cfg::KeyPair(key, value) => {
            let tag = if key.raw { RAW_PAIR } else { PAIR };
            push_texts(out, key.as_str(), value, tag)
        }
    }
}

/// Appends what precedes the members of an expression, and returns these members.
fn push_node<'a>(out: &mut Vec<u8>, e: &'a CfgExpr) -> Result<&'a [CfgExpr], AllocError>
    ensures flat { IfOk result (λ members. out.new.items ++ flats (trees_of (map tree_of members.now))
        ≡ out.old.items ++ flat (tree_of e.now)) }
    ensures size { IfOk result (λ members. node_counts members.now + 1 ≤ node_count e.now) }
{
    match e {
        CfgExpr::Not(inner) => {
            let negated: &CfgExpr = inner;
            push_numbers(out, 1, 0, NOT)?;
            Ok(slice::from_ref(negated))
        }
        CfgExpr::All(members) => {
            push_numbers(out, members.len(), 0, ALL)?;
            Ok(members)
        }
        CfgExpr::Any(members) => {
            push_numbers(out, members.len(), 0, ANY)?;
            Ok(members)
        }
        CfgExpr::Value(c) => {
            push_value(out, c)?;
            Ok(&[])
        }
        CfgExpr::True => {
            push_numbers(out, 0, 0, TRUE)?;
            Ok(&[])
        }
        CfgExpr::False => {
            push_numbers(out, 0, 0, FALSE)?;
            Ok(&[])
        }
    }
}

/// Appends an expression, without using stack for its depth.
pub(crate) fn push_expression(
    alloc: Global,
    out: &mut Vec<u8>,
    e: &CfgExpr,
) -> Result<(), AllocError>
    ensures { OnOk result (out.new.items ≡ out.old.items ++ flat (tree_of e.now)) }
{
    let mut left = slice::from_ref(e);
    let mut outer: Vec<&[CfgExpr]> = Vec::new(alloc);
    'nodes: loop {
        let Some((first, others)) = left.split_first() else {
            let Some(more) = outer.pop() else {
                return Ok(());
            };
            left = more;
            continue;
        };
        outer.push(others)?;
        left = push_node(out, first)?;
    }
}

/// Returns the bytes of a condition.
pub(crate) fn flatten(alloc: Global, platform: &Platform) -> Result<Vec<u8>, AllocError>
    ensures { IfOk result (λ bytes. bytes.items ≡ flat_condition (condition_of platform.now)) }
{
    let mut out = Vec::with_capacity(alloc, 512)?;
    match platform {
        Platform::Name(name) => push_texts(&mut out, name, "", TARGET)?,
        Platform::Cfg(e) => push_expression(alloc, &mut out, e)?,
    }
    Ok(out)
}
