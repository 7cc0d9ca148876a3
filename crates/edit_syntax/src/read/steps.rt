//! Finds where a value or a key of an array or an inline table ends, for edits of these.
ghost use Rattle.std.specs.Prelude.{◌≡◌, ℕ, List, ◌∷◌, ◌++◌, MatchResult};
ghost use Rattle.edit_base.specs.Errors.{IsMemory};
ghost use Rattle.edit_syntax.specs.declared.read.syntax_tokens.ReadError.TheVariants.{Memory};
ghost use Rattle.edit_syntax.specs.Characters.{equals};
ghost use Rattle.edit_syntax.specs.Strings.{◌·◌, Key, key as key_text};
ghost use Rattle.edit_syntax.specs.Grammar.{Between, gap, Value, value as value_text};
ghost use Rattle.edit_syntax.specs.SyntaxTokens.{tokens_of_key};
ghost use Rattle.edit_syntax.specs.Reading as reading;
ghost use Rattle.edit_syntax.specs.Steps.{IsItem, IsKeyAndSign};

use super::bytes::{Class, past, past_run};
use super::syntax_tokens::{ReadError, SyntaxToken};
use super::values::{key, value};
use edit_base::errors::{CargoResult, Error};
use std::alloc::Global;

/// The error of this crate for a tokenizer error in a text of `len` bytes.
fn to_error(error: ReadError, len: usize) -> Error
    ensures { error ≡ Memory → IsMemory result }
{
    match error {
        ReadError::Memory => Error::Memory,
        ReadError::NotToml { left } => Error::NotToml {
            at: len.saturating_sub(left),
        },
    }
}

/// The input behind the tabs and spaces at the front (TOML 1.0.0, "Spec").
pub fn past_blanks(s: &[u8]) -> &[u8]
    ensures { result.now ≡ reading.past_blanks s.now }
{
    past_run(s, Class::Blank)
}

/// The input behind the value at the front of an array or an inline table (TOML 1.0.0, "Key/Value Pair").
pub fn past_value(alloc: Global, s: &[u8]) -> CargoResult<&[u8]>
    ensures { (v : Value) (g : List Between) (rest : List ℕ) → IsItem v g rest
        → s.now ≡ value_text v (gap g rest) → MatchResult result (λ r. r.now ≡ gap g rest) IsMemory }
{
    let mut tokens = Vec::new(alloc);
    match value(&mut tokens, s, 80) {
        Ok(rest) => Ok(rest),
        Err(error) => Err(to_error(error, s.len())),
    }
}

/// The input behind the key at the front, its equals sign and the white space around it; the tokens of the
/// key's parts are appended to `out` (TOML 1.0.0, "Keys").
pub fn past_name<'a>(out: &mut Vec<SyntaxToken>, s: &'a [u8]) -> CargoResult<&'a [u8]>
    ensures { (k : Key) (a b more : List ℕ) → IsKeyAndSign k a b more
        → s.now ≡ key_text k (a · equals ∷ (b · more))
        → MatchResult result (λ r. (r.now ≡ more)
        × (out.new.items ≡ out.old.items ++ tokens_of_key k (a · equals ∷ (b · more)))) IsMemory }
{
    let after_key = match key(out, s) {
        Ok(rest) => rest,
        Err(error) => return Err(to_error(error, s.len())),
    };
    let sign = past_blanks(after_key);
    let Some(rest) = past(sign, b'=') else {
        return Err(to_error(ReadError::NotToml { left: sign.len() }, s.len()));
    };
    Ok(past_blanks(rest))
}
