//! Tokenizes lines: pairs, headers and comments.
ghost use Rattle.std.specs.Prelude.{◌≡◌, ◌<◌, ◌≤◌, slice_index, IfOk, MatchResult};
ghost use Rattle.edit_syntax.specs.declared.read.syntax_tokens.ReadError.TheVariants.{Memory};
ghost use Rattle.edit_syntax.specs.Characters.{left_bracket};
ghost use Rattle.edit_syntax.specs.Grammar.{Lines, AreLines, lines};
ghost use Rattle.edit_syntax.specs.Depth.{lines_depth};
ghost use Rattle.edit_syntax.specs.Reading as reading;
ghost use Rattle.edit_syntax.specs.SyntaxTokens.{tokens_of_statement, tokens_of_line, tokens_of_lines};
ghost use Rattle.edit_syntax.specs.AppendedTokens.{AppendsTokens};

use super::bytes::{Class, byte_at, first, past, past_run, skip};
use super::gaps::past_line_end;
use super::syntax_tokens::{ReadError, SyntaxToken, TokenKind};
use super::values::{append_token, key, pair};
use std::alloc::Global;

/// Reads the header of a table, `[key]`.
#[tactic(auto, unfolding(crate::specs::Reading::header_at))]
fn header<'a>(out: &mut Vec<SyntaxToken>, s: &'a [u8]) -> Result<&'a [u8], ReadError>
    requires { reading.first s.now ≡ left_bracket }
    ensures { AppendsTokens tokens_of_statement out.old out.new result (reading.header_at s.now) }
{
    let after_key = key(out, past_run(skip(s, 1), Class::Blank))?;
    let end = past_run(after_key, Class::Blank);
    let Some(rest) = past(end, b']') else {
        return Err(ReadError::NotToml { left: end.len() });
    };
    append_token(out, TokenKind::Header, s, rest)?;
    Ok(rest)
}

/// Reads the header of an element of an array of tables, `[[key]]`.
#[tactic(auto, unfolding(crate::specs::Reading::element_header_at))]
fn element_header<'a>(out: &mut Vec<SyntaxToken>, s: &'a [u8]) -> Result<&'a [u8], ReadError>
    requires first { reading.first s.now ≡ left_bracket }
    requires second { slice_index s.now 1 ≡ left_bracket }
    ensures { AppendsTokens tokens_of_statement out.old out.new result (reading.element_header_at s.now) }
{
    let after_key = key(out, past_run(skip(s, 2), Class::Blank))?;
    let end = past_run(after_key, Class::Blank);
    let Some(inner) = past(end, b']') else {
        return Err(ReadError::NotToml { left: end.len() });
    };
    let Some(rest) = past(inner, b']') else {
        return Err(ReadError::NotToml { left: inner.len() });
    };
    append_token(out, TokenKind::ElementHeader, s, rest)?;
    Ok(rest)
}

/// Reads a statement: a key/value pair, a `[key]` header or a `[[key]]` header.
#[tactic(auto, unfolding(crate::specs::Reading::statement_at))]
fn statement<'a>(
    out: &mut Vec<SyntaxToken>,
    s: &'a [u8],
    depth: usize,
) -> Result<&'a [u8], ReadError>
    requires { depth < 1000 }
    ensures { AppendsTokens tokens_of_statement out.old out.new result (reading.statement_at depth s.now) }
{
    if first(s) != b'[' {
        return pair(out, s, depth);
    }
    if byte_at(s, 1) == b'[' {
        return element_header(out, s);
    }
    header(out, s)
}

/// The input behind an optional comment.
fn past_comment(s: &[u8]) -> &[u8]
    ensures { result.now ≡ reading.past_comment s.now }
{
    if first(s) == b'#' {
        past_run(skip(s, 1), Class::Comment)
    } else {
        s
    }
}

/// Whether a line without a statement ends with this byte: a comment, a newline or the end of the text begins
/// here.
fn is_line_over(b: u8) -> bool
    ensures { result ≡ reading.is_line_over b }
{
    b == 0 || b == b'#' || b == b'\n' || b == b'\r'
}

/// Reads a line up to its newline.
pub(crate) fn line<'a>(
    out: &mut Vec<SyntaxToken>,
    s: &'a [u8],
    depth: usize,
) -> Result<&'a [u8], ReadError>
    requires { depth < 1000 }
    ensures { AppendsTokens tokens_of_line out.old out.new result (reading.line_at depth s.now) }
{
    let start = past_run(s, Class::Blank);
    if is_line_over(first(start)) {
        return Ok(past_comment(start));
    }
    let rest = statement(out, start, depth)?;
    Ok(past_comment(past_run(rest, Class::Blank)))
}

/// The tokens of all lines of a text, with arrays and inline tables nested at most 80 deep.
pub(crate) fn lines(alloc: Global, text: &[u8]) -> Result<Vec<SyntaxToken>, ReadError>
    ensures found { IfOk result (λ v. (form : Lines) × (text.now ≡ lines form) × AreLines form
        × (lines_depth form ≤ 80) × (v.items ≡ tokens_of_lines form)) }
    ensures only { (form : Lines) → text.now ≡ lines form → AreLines form → lines_depth form ≤ 80
        → MatchResult result (λ v. v.items ≡ tokens_of_lines form) (λ e. e ≡ Memory) }
{
    let mut out = Vec::new(alloc);
    let mut rest = text;
    'lines: for _line in 0..text.len() + 1 {
        let after_line = line(&mut out, rest, 80)?;
        if after_line.is_empty() {
            return Ok(out);
        }
        let Some(next) = past_line_end(after_line) else {
            return Err(ReadError::NotToml {
                left: after_line.len(),
            });
        };
        rest = next;
    }
    Err(ReadError::NotToml { left: rest.len() })
}
