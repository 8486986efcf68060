//! Rows at several sizes. The parts that grow are written in braces: `{N*ab}` is that text N times, `{N$m$}` is the
//! same with the number of each, from 1 on, for `$`, `{N~abc}` is N of these characters in turn, and `{2N+1}` is a
//! number.

use crate::Fault;
use std::alloc::{AllocError, Global};

/// Each number up to 17, and each further power of two up to 2^17, one less and one more.
const SIZES: [usize; 56] = [
    1, 2, 3, 4, 5, 6, 7, 8, 9, 10, 11, 12, 13, 14, 15, 16, 17, 31, 32, 33, 63, 64, 65, 127, 128,
    129, 255, 256, 257, 511, 512, 513, 1023, 1024, 1025, 2047, 2048, 2049, 4095, 4096, 4097, 8191,
    8192, 8193, 16383, 16384, 16385, 32767, 32768, 32769, 65535, 65536, 65537, 131071, 131072,
    131073,
];

/// The characters of `{N~}`. Their number is odd, so that each power of two falls on another one.
const CHARACTERS: &str = "abcdefghijklmnopqrstuvwxyz_0123456789";

fn number(word: &str) -> Result<usize, Fault> {
    match word.parse::<usize>() {
        Ok(number) => Ok(number),
        Err(_) => Err(Fault::Row("a size or a count is lacking")),
    }
}

/// Returns the sizes of a word: `500` is one, and `1..8193` are those of the list from 1 up to 8193.
pub fn sizes_of(alloc: Global, word: &str) -> Result<Vec<usize>, Fault> {
    let mut sizes = Vec::new(alloc);
    let Some((first, last)) = word.split_once("..") else {
        sizes.push(number(word)?).map_err(AllocError::from)?;
        return Ok(sizes);
    };
    let first = number(first)?;
    let last = number(last)?;
    for size in &SIZES {
        if first <= *size && *size <= last {
            sizes.push(*size).map_err(AllocError::from)?;
        }
    }
    if sizes.is_empty() {
        return Err(Fault::Row("no size lies between these"));
    }
    Ok(sizes)
}

/// Returns a row at a size, with its question and its expected answer.
pub fn row_at(alloc: Global, row: &str, size: usize) -> Result<String, Fault> {
    let mut out = String::new(alloc);
    for (at, part) in row.split('{').enumerate() {
        if at == 0 {
            out.push_str(part)?;
            continue;
        }
        let Some((grown, rest)) = part.split_once('}') else {
            return Err(Fault::Row("a brace is not closed"));
        };
        add_grown(&mut out, grown, size)?;
        out.push_str(rest)?;
    }
    Ok(out)
}

/// Returns the number of `7`, `N`, `N+1`, `N-1`, `3N` or `3N+1`.
fn count_at(text: &str, size: usize) -> Option<usize> {
    let Some((factor, more)) = text.split_once('N') else {
        return text.parse::<usize>().ok();
    };
    let factor = if factor.is_empty() {
        1
    } else {
        factor.parse::<usize>().ok()?
    };
    let times = factor.saturating_mul(size);
    if more.is_empty() {
        return Some(times);
    }
    if let Some(less) = more.strip_prefix('-') {
        return Some(times.saturating_sub(less.parse::<usize>().ok()?));
    }
    let further = more.strip_prefix('+')?.parse::<usize>().ok()?;
    Some(times.saturating_add(further))
}

/// Appends the part between braces.
fn add_grown(out: &mut String, grown: &str, size: usize) -> Result<(), Fault> {
    let form = grown.trim_start_matches(|c: char| c.is_ascii_digit()
        || matches!(c, 'N' | '+' | '-'));
    let before = grown.strip_suffix(form).unwrap_or("");
    let Some(count) = count_at(before, size) else {
        return Err(Fault::Row("a brace is not followed by a number"));
    };
    if form.is_empty() {
        write!(out, "{count}")?;
    } else if let Some(text) = form.strip_prefix('*') {
        add_times(out, text, count)?;
    } else if let Some(text) = form.strip_prefix('$') {
        for at in 0..count {
            add_numbered(out, text, at.saturating_add(1))?;
        }
    } else if let Some(text) = form.strip_prefix('~') {
        add_in_turn(out, if text.is_empty() { CHARACTERS } else { text }, count)?;
    } else {
        return Err(Fault::Row("there is no such form"));
    }
    Ok(())
}

fn add_times(out: &mut String, text: &str, count: usize) -> Result<(), AllocError> {
    for _ in 0..count {
        out.push_str(text)?;
    }
    Ok(())
}

fn add_numbered(out: &mut String, text: &str, number: usize) -> Result<(), AllocError> {
    for (at, part) in text.split('$').enumerate() {
        if at > 0 {
            write!(out, "{number}")?;
        }
        out.push_str(part)?;
    }
    Ok(())
}

/// Appends `count` characters, each of one byte, of a text that is repeated.
fn add_in_turn(out: &mut String, text: &str, count: usize) -> Result<(), AllocError> {
    let mut left = count;
    for _ in 0..count {
        if left <= text.len() {
            break;
        }
        out.push_str(text)?;
        left = left.saturating_sub(text.len());
    }
    out.push_str(text.get(..left).unwrap_or(""))
}
