//! Skips JSON values, token by token.
ghost use Rattle.std.specs.Prelude.{◌≡◌, ◌<◌, ◌⊎◌, codes, true, length, IfSome, None};
ghost use Rattle.serde_json.specs.Data.{Data, Items, Members};
ghost use Rattle.edit_json.specs.Reads.{ReadsItems, ReadsMembers, ReadsValue};
ghost use Rattle.edit_json.specs.SmallNumbers.{ReadsNoItems, ReadsNoMembers, ReadsNoValue};

use json::{Reader, Token};

/// Whether a number is `1` or `2`, the only ones that registries write (as the member `v`).
fn is_small_number(text: &str) -> bool
    ensures small { result ≡ true → (text.now ≡ codes "1") ⊎ (text.now ≡ codes "2") }
    ensures other { (text.now ≡ codes "1") ⊎ (text.now ≡ codes "2") → result ≡ true }
{
    text == "1" || text == "2"
}

/// Skips a value. `None` where it is malformed, nested deeper than `depth`, or has a number other than `1`
/// and `2`.
#[cycle(skip_value)]
#[inline(always)]
pub fn skip_value(reader: &mut Reader<'_>, depth: usize) -> Option<()>
    ensures shorter { IfSome result (λ _. length reader.new < length reader.old) }
    ensures value { IfSome result
        (λ _. (d : Data) × ReadsValue depth reader.old d reader.new) }
    ensures error { result ≡ None → ReadsNoValue depth reader.old }
{
    match reader.next() {
        Some(Token::String(_text)) => Some(()),
        Some(Token::Bool(_b)) => Some(()),
        Some(Token::Null) => Some(()),
        Some(Token::Number(text)) => if is_small_number(text) {
            Some(())
        } else {
            None
        },
        Some(Token::BeginArray) => {
            if depth == 0 {
                return None;
            }
            skip_items(reader, depth - 1)
        }
        Some(Token::BeginObject) => {
            if depth == 0 {
                return None;
            }
            skip_members(reader, depth - 1)
        }
        Some(Token::EndObject) => None,
        Some(Token::EndArray) => None,
        Some(Token::Key(_key)) => None,
        Some(Token::Bad) => None,
        None => None,
    }
}

/// Skips the elements of an array and its closing bracket, each element as `skip_value` does.
#[cycle(skip_value)]
#[inline(never)]
fn skip_items(reader: &mut Reader<'_>, depth: usize) -> Option<()>
    ensures shorter { IfSome result (λ _. length reader.new < length reader.old) }
    ensures value { IfSome result (λ _. (ds : Items) × ReadsItems depth reader.old ds reader.new) }
    ensures error { result ≡ None → ReadsNoItems depth reader.old }
{
    while !reader.take_end_array() {
        skip_value(reader, depth)?;
    }
    Some(())
}

/// Skips the members of an object and its closing brace, each value as `skip_value` does.
#[cycle(skip_value)]
#[inline(never)]
fn skip_members(reader: &mut Reader<'_>, depth: usize) -> Option<()>
    ensures shorter { IfSome result (λ _. length reader.new < length reader.old) }
    ensures value { IfSome result (λ _. (ms : Members) × ReadsMembers depth reader.old ms reader.new) }
    ensures error { result ≡ None → ReadsNoMembers depth reader.old }
{
    while let Some(_) = reader.next_key().ok()? {
        skip_value(reader, depth)?;
    }
    Some(())
}
