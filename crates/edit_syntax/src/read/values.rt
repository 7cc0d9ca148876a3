//! Tokenizes keys, values and pairs; each function appends to `out` and returns the rest of the input.
ghost use Rattle.std.specs.Prelude.{◌≡◌, ◌+◌, ◌<◌, MatchResult, drop, length};
ghost use Rattle.edit_syntax.specs.declared.read.syntax_tokens.ReadError.TheVariants.{Memory};
ghost use Rattle.edit_syntax.specs.Characters.{left_brace, left_bracket};
ghost use Rattle.edit_syntax.specs.Reading as reading;
ghost use Rattle.edit_syntax.specs.SyntaxTokens.{token_between, tokens_of_key, tokens_of_value};
ghost use Rattle.edit_syntax.specs.AppendedTokens.{AppendsTokens, AppendsToken, tokens_of_part, tokens_of_array, tokens_of_pair, tokens_of_inline_table};

use super::bytes::{Class, first, past, past_run, skip};
use super::gaps::past_gap;
use super::syntax_tokens::{ReadError, SyntaxToken, TokenKind};
use super::tokens::{past_part, past_scalar};

/// The number of bytes left, as a token stores it. `ReadError::Memory` where it exceeds 32 bits.
fn remaining_len(s: &[u8]) -> Result<u32, ReadError>
    ensures { MatchResult result (λ n. n ≡ length s.now) (λ e. e ≡ Memory) }
{
    u32::try_from(s.len()).map_err(|_| ReadError::Memory)
}

/// Appends the token that begins at `from` and ends where `to` begins.
pub(crate) fn append_token(
    out: &mut Vec<SyntaxToken>,
    kind: TokenKind,
    from: &[u8],
    to: &[u8],
) -> Result<(), ReadError>
    ensures { AppendsToken out.old out.new result (token_between kind from.now to.now) }
{
    let token = SyntaxToken {
        kind,
        from: remaining_len(from)?,
        to: remaining_len(to)?,
    };
    out.push(token)?;
    Ok(())
}

/// Reads a part of a key.
fn part<'a>(out: &mut Vec<SyntaxToken>, s: &'a [u8]) -> Result<&'a [u8], ReadError>
    ensures { AppendsTokens tokens_of_part out.old out.new result (reading.part_at s.now) }
{
    let Some((kind, rest)) = past_part(s) else {
        return Err(ReadError::NotToml { left: s.len() });
    };
    append_token(out, kind, s, rest)?;
    Ok(rest)
}

/// Reads a key: one part or several joined by dots.
pub(crate) fn key<'a>(out: &mut Vec<SyntaxToken>, s: &'a [u8]) -> Result<&'a [u8], ReadError>
    ensures { AppendsTokens tokens_of_key out.old out.new result (reading.key_at s.now) }
{
    let mut rest = part(out, s)?;
    'parts: for _part in 0..s.len() {
        let dot = past_run(rest, Class::Blank);
        if first(dot) != b'.' {
            return Ok(rest);
        }
        rest = part(out, past_run(skip(dot, 1), Class::Blank))?;
    }
    Err(ReadError::NotToml { left: rest.len() })
}

/// Reads a value of a single token.
fn scalar<'a>(out: &mut Vec<SyntaxToken>, s: &'a [u8]) -> Result<&'a [u8], ReadError>
    ensures { AppendsTokens tokens_of_value out.old out.new result (reading.scalar_at s.now) }
{
    let Some((kind, rest)) = past_scalar(s) else {
        return Err(ReadError::NotToml { left: s.len() });
    };
    append_token(out, kind, s, rest)?;
    Ok(rest)
}

/// Reads a pair: a key, an equals sign and a value.
#[cycle(values)]
#[tactic(auto, unfolding(crate::specs::Reading::pair_at))]
pub(crate) fn pair<'a>(
    out: &mut Vec<SyntaxToken>,
    s: &'a [u8],
    depth: usize,
) -> Result<&'a [u8], ReadError>
    requires { depth < 1000 }
    ensures { AppendsTokens tokens_of_pair out.old out.new result
        (reading.pair_at (reading.value_at depth) s.now) }
{
    let after_key = key(out, s)?;
    let sign = past_run(after_key, Class::Blank);
    let Some(rest) = past(sign, b'=') else {
        return Err(ReadError::NotToml { left: sign.len() });
    };
    value(out, past_run(rest, Class::Blank), depth)
}

/// The input behind a comma and the white space, newlines and comments after it.
fn past_comma(s: &[u8]) -> &[u8]
    ensures { result.now ≡ reading.past_gap (drop 1 s.now) }
{
    past_gap(skip(s, 1))
}

/// Reads the pairs of an inline table and its closing brace.
#[cycle(values)]
fn members<'a>(
    out: &mut Vec<SyntaxToken>,
    s: &'a [u8],
    depth: usize,
    count: usize,
) -> Result<&'a [u8], ReadError>
    requires { depth < 1000 }
    ensures { AppendsTokens tokens_of_inline_table out.old out.new result
        (reading.members_at (reading.value_at depth) count s.now) }
{
    let mut rest = s;
    'members: for _member in 0..count {
        if first(rest) == b'}' {
            let after = skip(rest, 1);
            append_token(out, TokenKind::CloseTable, rest, after)?;
            return Ok(after);
        }
        let after_value = pair(out, rest, depth)?;
        let end = past_gap(after_value);
        if first(end) != b',' {
            let Some(after) = past(end, b'}') else {
                return Err(ReadError::NotToml { left: end.len() });
            };
            append_token(out, TokenKind::CloseTable, end, after)?;
            return Ok(after);
        }
        rest = past_comma(end);
    }
    Err(ReadError::NotToml { left: rest.len() })
}

/// Reads the elements of an array and its closing bracket.
#[cycle(values)]
fn elements<'a>(
    out: &mut Vec<SyntaxToken>,
    s: &'a [u8],
    depth: usize,
    count: usize,
) -> Result<&'a [u8], ReadError>
    requires { depth < 1000 }
    ensures { AppendsTokens tokens_of_array out.old out.new result
        (reading.elements_at (reading.value_at depth) count s.now) }
{
    let mut rest = s;
    'elements: for _element in 0..count {
        if first(rest) == b']' {
            let after = skip(rest, 1);
            append_token(out, TokenKind::CloseArray, rest, after)?;
            return Ok(after);
        }
        let after_value = value(out, rest, depth)?;
        let end = past_gap(after_value);
        if first(end) != b',' {
            let Some(after) = past(end, b']') else {
                return Err(ReadError::NotToml { left: end.len() });
            };
            append_token(out, TokenKind::CloseArray, end, after)?;
            return Ok(after);
        }
        rest = past_comma(end);
    }
    Err(ReadError::NotToml { left: rest.len() })
}

/// Reads an array whose elements nest at most `depth` deep.
#[cycle(values)]
fn array<'a>(out: &mut Vec<SyntaxToken>, s: &'a [u8], depth: usize) -> Result<&'a [u8], ReadError>
    requires shallow { depth < 1000 }
    requires opened { reading.first s.now ≡ left_bracket }
    ensures { AppendsTokens tokens_of_value out.old out.new result (reading.value_at (depth + 1) s.now) }
{
    let behind = skip(s, 1);
    append_token(out, TokenKind::OpenArray, s, behind)?;
    elements(out, past_gap(behind), depth, s.len())
}

/// Reads an inline table whose values nest at most `depth` deep.
#[cycle(values)]
fn inline_table<'a>(
    out: &mut Vec<SyntaxToken>,
    s: &'a [u8],
    depth: usize,
) -> Result<&'a [u8], ReadError>
    requires shallow { depth < 1000 }
    requires opened { reading.first s.now ≡ left_brace }
    ensures { AppendsTokens tokens_of_value out.old out.new result (reading.value_at (depth + 1) s.now) }
{
    let behind = skip(s, 1);
    append_token(out, TokenKind::OpenTable, s, behind)?;
    members(out, past_gap(behind), depth, s.len())
}

/// Reads a value whose arrays and inline tables nest at most `depth` deep.
#[cycle(values)]
#[tactic(auto, unfolding(crate::specs::Reading::value_at))]
pub(crate) fn value<'a>(
    out: &mut Vec<SyntaxToken>,
    s: &'a [u8],
    depth: usize,
) -> Result<&'a [u8], ReadError>
    requires { depth < 1000 }
    ensures { AppendsTokens tokens_of_value out.old out.new result (reading.value_at depth s.now) }
{
    if depth == 0 {
        return scalar(out, s);
    }
    if first(s) == b'[' {
        return array(out, s, depth - 1);
    }
    if first(s) == b'{' {
        return inline_table(out, s, depth - 1);
    }
    scalar(out, s)
}
