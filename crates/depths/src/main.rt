//! Makes each call of the library on conditions of many levels, and prints a line for each call that returned.
//!
//! A call that took stack for each level of such a condition would end the program. The status is 0 if the result of
//! each call is what is known of the condition without it, and 1 otherwise. Arguments select something else:
//!
//! - `loops`: makes the calls on those conditions for which they need no stack;
//! - `drops NUMBER LEVELS`: drops nests of this shape at each place;
//! - `again NUMBER LEVELS TIMES`: does that so many times, so that what is not dropped shows in the memory;
//! - `copies NUMBER LEVELS`: copies a nest until memory is refused;
//! - `describe`, `is_selected` or `lint`: calls that caller with a key from standard input.
#![tactic(auto)]

mod calls;
mod drops;
mod nests;
mod printed_callers;
mod shapes;

use calls::{Call, Nest};
use drops::PLACES;
use nests::Form;
use printed_callers::Caller;
use shapes::{SHAPES, Shape};
use std::process::ExitCode;
use std::rt::Env;
use std::{env, io};

/// The number of levels for calls that visit the last members in a loop, and for calls that keep the open groups in a
/// list.
const DEEP: u32 = 2_000_000;

/// The number of levels for calls that visit the members before the last by recursion.
const RECURSING: u32 = 20_000;

/// The calls that keep the open groups in a list.
const LISTING: &[Call] = &[
    Call::Read,
    Call::RefuseSurplus,
    Call::RefuseOpen,
    Call::Clone,
    Call::Attributes,
    Call::Keywords,
    Call::Residual,
];

/// The other calls.
const OTHERS: &[Call] = &[
    Call::MatchesKey,
    Call::Print,
    Call::Debug,
    Call::ToJson,
    Call::Matches,
    Call::MatchesIn,
    Call::Equal,
    Call::Order,
    Call::Hash,
    Call::Decide,
];

/// Makes the calls on a nest of this form, and drops it. Returns whether each call was right.
fn make(
    rt: &(impl Print + AllocGlobal),
    calls: &[Call],
    form: Form,
    levels: u32,
) -> io::Result<bool> {
    let nest = Nest::new(rt.alloc(), form, levels)?;
    let pattern = form.pattern();
    let mut are_right = true;
    for call in calls {
        let name = call.name();
        let is_right = nest.is_expected(rt.alloc(), *call)?;
        let said = if is_right { "right" } else { "wrong" };
        println!(rt; "{levels} levels of {pattern}, {name}: {said}")?;
        are_right = are_right && is_right;
    }
    drop(nest);
    println!(rt; "{levels} levels of {pattern}, drop: done")?;
    Ok(are_right)
}

/// Makes the calls on nests for which they need no stack.
fn make_loops(rt: &(impl Print + AllocGlobal)) -> io::Result<bool> {
    let mut are_right = true;
    for (calls, form) in [
        (LISTING, Form::Not),
        (OTHERS, Form::Not),
        (LISTING, Form::Last),
        (OTHERS, Form::Last),
        (LISTING, Form::First),
    ] {
        let is_right = make(rt, calls, form, DEEP)?;
        are_right = are_right && is_right;
    }
    Ok(are_right)
}

/// Makes each call on its nests.
fn make_each(rt: &(impl Print + AllocGlobal)) -> io::Result<bool> {
    let are_right = make_loops(rt)?;
    let is_right = make(rt, OTHERS, Form::First, RECURSING)?;
    Ok(are_right && is_right)
}

/// Drops nests of the shape at each place, and prints a line for each.
fn drop_at_each(rt: &(impl Print + AllocGlobal), shape: Shape, levels: usize) -> io::Result<bool> {
    let pattern = shape.pattern(rt.alloc())?;
    let mut are_right = true;
    for place in PLACES {
        let is_right = drops::drop_made_and_parsed(rt.alloc(), shape, levels, *place)?;
        let said = if is_right { "let go" } else { "wrong" };
        let name = place.name();
        println!(rt; "{levels} levels of {pattern}, {name}: {said}")?;
        are_right = are_right && is_right;
    }
    Ok(are_right)
}

/// Drops nests of the shape at each place, `times` times.
fn drop_again(
    rt: &(impl Print + AllocGlobal),
    shape: Shape,
    levels: usize,
    times: u32,
) -> io::Result<bool> {
    let mut are_right = true;
    for _ in 0..times {
        for place in PLACES {
            let is_right = drops::drop_made_and_parsed(rt.alloc(), shape, levels, *place)?;
            are_right = are_right && is_right;
        }
    }
    let pattern = shape.pattern(rt.alloc())?;
    println!(rt; "{levels} levels of {pattern}, {times} times: let go")?;
    Ok(are_right)
}

/// Copies a nest of the shape until an allocation fails.
fn copy_until_refused(
    rt: &(impl Print + AllocGlobal),
    shape: Shape,
    levels: usize,
) -> io::Result<bool> {
    let copies = drops::copies(rt.alloc(), shape, levels)?;
    let pattern = shape.pattern(rt.alloc())?;
    println!(rt; "{levels} levels of {pattern}, copies before one was refused: {copies}")?;
    Ok(true)
}

/// Does what the arguments select. Returns `None` if they select nothing that is known.
fn ask(rt: &(impl Print + Input + AllocGlobal), words: &[String]) -> io::Result<Option<bool>> {
    match words {
        [] => Ok(Some(make_each(rt)?)),
        [word] if word.as_str() == "loops" => Ok(Some(make_loops(rt)?)),
        [caller] => match Caller::named(caller.as_str()) {
            Some(caller) => {
                let key = io::read_to_string(rt.alloc(), rt.reader())?;
                let answer = caller.answer(rt.alloc(), key.as_str())?;
                print!(rt; "{answer}")?;
                Ok(Some(true))
            }
            None => Ok(None),
        },
        [what, shape, levels] => {
            let Some((shape, levels)) = asked(shape.as_str(), levels.as_str()) else {
                return Ok(None);
            };
            match what.as_str() {
                "drops" => Ok(Some(drop_at_each(rt, shape, levels)?)),
                "copies" => Ok(Some(copy_until_refused(rt, shape, levels)?)),
                _ => Ok(None),
            }
        }
        [_again, shape, levels, times] => {
            let Some((shape, levels)) = asked(shape.as_str(), levels.as_str()) else {
                return Ok(None);
            };
            match times.parse::<u32>() {
                Ok(times) => Ok(Some(drop_again(rt, shape, levels, times)?)),
                Err(_) => Ok(None),
            }
        }
        _ => Ok(None),
    }
}

/// Returns the shape with this number, and the number of levels.
fn asked(number: &str, levels: &str) -> Option<(Shape, usize)> {
    let number = number.parse::<usize>().ok()?;
    let shape = SHAPES.get(number)?;
    Some((*shape, levels.parse::<usize>().ok()?))
}

fn main(rt: HostRuntime) -> io::Result<ExitCode> {
    let mut words = Vec::new(rt.alloc());
    for word in env::args(&rt)?.skip(1) {
        words.push(word)?;
    }
    Ok(ExitCode::from(match ask(&rt, &words)? {
        Some(true) => 0,
        Some(false) => 1,
        None => 2,
    }))
}
