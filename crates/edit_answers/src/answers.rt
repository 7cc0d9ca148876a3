//! Parses the outcomes of transfers that curl writes.
ghost use Rattle.std.specs.Prelude.{◌≡◌, ◌⊎◌, ◌+◌, ◌<◌, ℕ, Some, None, IfNone, IfOk, IfSome, length, replicate, slice_get};
ghost use Rattle.edit_answers.specs.Answers.{AreFirst, AreFound, HasAnswerAt, IsAnswerLine};
ghost use Rattle.edit_answers.specs.declared.answers.Answer.{Answer};

use std::alloc::{AllocError, Global};

/// The outcome of a transfer: the HTTP status, curl's exit code, the number of redirects that it followed,
/// and its message, which may be empty.
#[derive(Clone, Copy, Debug)]
pub struct Answer<'a> {
    pub code: &'a str,
    pub exit: &'a str,
    pub redirects: &'a str,
    pub message: &'a str,
}

/// Parses a line `NUMBER TAB CODE TAB EXIT TAB REDIRECTS TAB MESSAGE`: the number of a transfer, and its
/// outcome.
fn read_answer<'a>(line: &'a str) -> Option<(usize, Answer<'a>)>
    ensures some { IfSome result (λ x. IsAnswerLine line.now x.0 x.1) }
    ensures none { IfNone result ((number : ℕ) (a : Answer) → IsAnswerLine line.now number a → ⊥) }
{
    let Some((number, rest)) = line.split_once('\t') else {
        return None;
    };
    let Some((code, rest)) = rest.split_once('\t') else {
        return None;
    };
    let Some((exit, rest)) = rest.split_once('\t') else {
        return None;
    };
    let Some((redirects, message)) = rest.split_once('\t') else {
        return None;
    };
    match number.parse::<usize>() {
        Ok(number) => Some((
            number,
            Answer {
                code,
                exit,
                redirects,
                message,
            },
        )),
        Err(_) => None,
    }
}

/// Returns a table of `count` absent outcomes.
fn no_answers<'a>(alloc: Global, count: usize) -> Result<Vec<Option<Answer<'a>>>, AllocError>
    ensures { IfOk result (λ v. v.items ≡ replicate count None) }
{
    let mut table = Vec::with_capacity(alloc, count)?;
    for i in 0..count {
        table.push(None)?;
    }
    Ok(table)
}

/// Puts an outcome into the slot of its number, from 1, if the table has that slot and it is empty.
fn put_answer<'a>(table: &mut Vec<Option<Answer<'a>>>, number: usize, answer: Answer<'a>)
    ensures put { (k : ℕ) (a : Answer) → slice_get table.new.items k ≡ Some (Some a)
        → (slice_get table.old.items k ≡ Some (Some a)) ⊎ ((k + 1 ≡ number) × (a ≡ answer.entry)) }
    ensures preserved { (k : ℕ) (a : Answer) → slice_get table.old.items k ≡ Some (Some a)
        → slice_get table.new.items k ≡ Some (Some a) }
    ensures has { (k : ℕ) → k + 1 ≡ number → k < length table.old.items → HasAnswerAt table.new.items k }
    ensures count { length table.new.items ≡ length table.old.items }
{
    if number == 0 || number > table.len() {
        return;
    }
    if table[number - 1].is_none() {
        table[number - 1] = Some(answer);
    }
}

/// Parses the outcomes of the transfers number 1 to `count` from the lines that curl wrote. Of several lines
/// for one transfer the first counts. A last line without a line end was truncated, and is ignored.
pub fn read_answers<'a>(
    alloc: Global,
    text: &'a str,
    count: usize,
) -> Result<Vec<Option<Answer<'a>>>, AllocError>
    ensures first { IfOk result (λ v. AreFirst text.now v.items) }
    ensures found { IfOk result (λ v. AreFound text.now v.items) }
    ensures count { IfOk result (λ v. length v.items ≡ count) }
{
    let mut table = no_answers(alloc, count)?;
    let mut rest = text;
    while let Some((line, after)) = rest.split_once('\n') {
        if let Some((number, answer)) = read_answer(line) {
            put_answer(&mut table, number, answer);
        }
        rest = after;
    }
    Ok(table)
}
