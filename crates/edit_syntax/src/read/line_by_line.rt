//! Tokenizing a text one line at a time.
ghost use Rattle.std.specs.Prelude.{◌≡◌, ◌≤◌, ℕ, List, ◌++◌, [], MatchResult};
ghost use Rattle.edit_base.specs.Errors.{IsMemory};
ghost use Rattle.edit_syntax.specs.Strings.{LineEnd, line_end};
ghost use Rattle.edit_syntax.specs.Grammar.{Lines, AreLines, lines as lines_text};
ghost use Rattle.edit_syntax.specs.Depth.{lines_depth};
ghost use Rattle.edit_syntax.specs.FirstLine.{after_first, tokens_of_first_line};

use super::gaps::past_line_end;
use super::lines::line;
use super::syntax_tokens::{ReadError, SyntaxToken};
use edit_base::errors::{CargoResult, Error};

/// Appends the tokens of the first line, with arrays and inline tables nested at most 80 deep, and returns
/// the rest: empty, or the line's newline and the other lines.
pub fn first_line<'a>(out: &mut Vec<SyntaxToken>, text: &'a [u8]) -> CargoResult<&'a [u8]>
    // The first line of any lines in the grammar is read, unless memory runs out.
    ensures only { (form : Lines) → text.now ≡ lines_text form → AreLines form → lines_depth form ≤ 80 →
        MatchResult result
        (λ rest. (rest.now ≡ after_first form) × (out.new.items ≡ out.old.items ++ tokens_of_first_line form))
        IsMemory }
{
    match line(out, text, 80) {
        Ok(rest) => Ok(rest),
        Err(ReadError::Memory) => Err(Error::Memory),
        Err(ReadError::NotToml { left }) => Err(Error::NotToml {
            at: text.len().saturating_sub(left),
        }),
    }
}

/// The input behind a newline; empty where there is none.
pub fn next_line(text: &[u8]) -> &[u8]
    ensures next { (e : LineEnd) (rest : List ℕ) → text.now ≡ line_end e rest → result.now ≡ rest }
    ensures end { text.now ≡ [] → result.now ≡ [] }
{
    match past_line_end(text) {
        Some(rest) => rest,
        None => text,
    }
}
