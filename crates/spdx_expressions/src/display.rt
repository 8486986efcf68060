//! Prints licences, parts and expressions. Printing allocates nothing. The contracts are about plain `{}`, not
//! about a width, a fill or an alignment.

use crate::{Expected, Found, Licence, LicenceExpression, ParseError, Part, ReadError};
use std::fmt;
use std::fmt::Display;

impl fmt::Display for Licence {
    ghost use Rattle.std.specs.Prelude.{Some};
    ghost use Rattle.spdx_expressions.specs.Trees.{term_of};
    ghost use Rattle.spdx_expressions.specs.Print.{print_term};

    // Prints exactly the bytes that the definition gives.
    ghost output = { λ l. Some (print_term (term_of l)) };

    fn fmt<W: fmt::Write>(&self, f: &mut fmt::Formatter<W>) -> fmt::Result {
        f.write_str(&self.id)?;
        if self.or_later {
            f.write_str("+")?;
        }
        match &self.exception {
            Some(exception) => {
                f.write_str(" WITH ")?;
                f.write_str(exception)
            }
            None => Ok(()),
        }
    }
}

impl fmt::Display for Part {
    ghost use Rattle.std.specs.Prelude.{Some};
    ghost use Rattle.spdx_expressions.specs.Trees.{piece_of};
    ghost use Rattle.spdx_expressions.specs.Print.{print_piece};

    // Prints exactly the bytes that the definition gives.
    ghost output = { λ p. Some (print_piece (piece_of p)) };

    fn fmt<W: fmt::Write>(&self, f: &mut fmt::Formatter<W>) -> fmt::Result {
        match self {
            Part::Licence(licence) => licence.fmt(f),
            Part::And => f.write_str(" AND "),
            Part::Or => f.write_str(" OR "),
            Part::Open => f.write_str("("),
            Part::Close => f.write_str(")"),
        }
    }
}

impl fmt::Display for LicenceExpression {
    ghost use Rattle.std.specs.Prelude.{Some};
    ghost use Rattle.spdx_expressions.specs.Print.{print};

    // Prints exactly the bytes that the definition gives.
    ghost output = { λ e. Some (print e) };

    fn fmt<W: fmt::Write>(&self, f: &mut fmt::Formatter<W>) -> fmt::Result {
        write_parts(self.parts(), f)
    }
}

impl fmt::Display for Expected {
    ghost use Rattle.std.specs.Prelude.{Some};
    ghost use Rattle.spdx_expressions.specs.Print.{print_expected};

    // Prints exactly the bytes that the definition gives.
    ghost output = { λ e. Some (print_expected e) };

    fn fmt<W: fmt::Write>(&self, f: &mut fmt::Formatter<W>) -> fmt::Result {
        match self {
            Expected::Licence => f.write_str("a licence or `(`"),
            Expected::Exception => f.write_str("an exception"),
            Expected::Operator => f.write_str("`AND` or `OR`"),
            Expected::OperatorOrClose => f.write_str("`AND`, `OR` or `)`"),
            Expected::End => f.write_str("the end"),
        }
    }
}

impl fmt::Display for Found {
    ghost use Rattle.std.specs.Prelude.{Some};
    ghost use Rattle.spdx_expressions.specs.Print.{print_found};

    // Prints exactly the bytes that the definition gives.
    ghost output = { λ e. Some (print_found e) };

    fn fmt<W: fmt::Write>(&self, f: &mut fmt::Formatter<W>) -> fmt::Result {
        match self {
            Found::End => f.write_str("the end"),
            Found::Open => f.write_str("`(`"),
            Found::Close => f.write_str("`)`"),
            Found::Slash => f.write_str("`/`"),
            Found::And => f.write_str("`AND`"),
            Found::Or => f.write_str("`OR`"),
            Found::With => f.write_str("`WITH`"),
            Found::Licence => f.write_str("a licence"),
            Found::Unknown => f.write_str("a word that names no licence"),
        }
    }
}

impl fmt::Display for ParseError {
    ghost use Rattle.std.specs.Prelude.{Some};
    ghost use Rattle.spdx_expressions.specs.Print.{print_error};

    // Prints exactly the bytes that the definition gives.
    ghost output = { λ e. Some (print_error e) };

    fn fmt<W: fmt::Write>(&self, f: &mut fmt::Formatter<W>) -> fmt::Result {
        let text = &self.text;
        let expected = &self.expected;
        let found = &self.found;
        write!(
            f,
            "failed to parse `{text}` as a licence expression: expected {expected}, found {found}"
        )
    }
}

impl std::error::Error for ParseError {}

impl fmt::Display for ReadError {
    ghost use Rattle.spdx_expressions.specs.Print.{print_refusal};

    // Prints exactly the bytes that the definition gives, except for `Memory`.
    ghost output = { λ e. print_refusal e };

    fn fmt<W: fmt::Write>(&self, f: &mut fmt::Formatter<W>) -> fmt::Result {
        match self {
            ReadError::Parse(error) => write!(f, "{error}"),
            ReadError::Memory(error) => write!(f, "{error}"),
        }
    }
}

ghost use Rattle.std.specs.Fmt.{WritesOnOk};
ghost use Rattle.spdx_expressions.specs.Trees.{pieces};
ghost use Rattle.spdx_expressions.specs.Print.{print};

/// Writes parts, one after another.
fn write_parts<W: fmt::Write>(parts: &[Part], f: &mut fmt::Formatter<W>) -> fmt::Result
    ensures { WritesOnOk W.write_str_gives f.old result (print (pieces parts.now)) f.new }
{
    for part in parts {
        part.fmt(f)?;
    }
    Ok(())
}
