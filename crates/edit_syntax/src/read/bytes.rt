//! Classes of bytes, and reading bytes and runs of bytes off the front of a slice.
ghost use Rattle.std.specs.Prelude.{◌≡◌, ◌≤◌, length, drop, slice_index, option_map};
ghost use Rattle.std.specs.List.{prefix_len};
ghost use Rattle.std.specs.Char as chars;
ghost use Rattle.edit_syntax.specs.Characters as spec;
ghost use Rattle.edit_syntax.specs.Reading as reading;
ghost use Rattle.edit_syntax.specs.AppendedTokens.{class_test};

/// The classes of bytes that `run_len` can count.
#[derive(Clone, Copy)]
pub(crate) enum Class {
    Blank,
    Comment,
    Bare,
    Basic,
    Literal,
    Unescaped,
    Spacing,
    Decimal,
    Hexadecimal,
    Octal,
    Binary,
}

// The flags of the classes of one byte.
const COMMENT: u8 = 1;

const BARE: u8 = 2;

const BASIC: u8 = 4;

const LITERAL: u8 = 8;

// For each byte the sum of the flags of its classes, in rows of sixteen bytes.
#[rattlefmt::skip]
static CLASSES: [u8; 256] = [
     0,  0,  0,  0,  0,  0,  0,  0,  0, 13,  0,  0,  0,  0,  0,  0,
     0,  0,  0,  0,  0,  0,  0,  0,  0,  0,  0,  0,  0,  0,  0,  0,
    13, 13,  9, 13, 13, 13, 13,  5, 13, 13, 13, 13, 13, 15, 13, 13,
    15, 15, 15, 15, 15, 15, 15, 15, 15, 15, 13, 13, 13, 13, 13, 13,
    13, 15, 15, 15, 15, 15, 15, 15, 15, 15, 15, 15, 15, 15, 15, 15,
    15, 15, 15, 15, 15, 15, 15, 15, 15, 15, 15, 13,  9, 13, 13, 15,
    13, 15, 15, 15, 15, 15, 15, 15, 15, 15, 15, 15, 15, 15, 15, 15,
    15, 15, 15, 15, 15, 15, 15, 15, 15, 15, 15, 13, 13, 13, 13,  0,
    13, 13, 13, 13, 13, 13, 13, 13, 13, 13, 13, 13, 13, 13, 13, 13,
    13, 13, 13, 13, 13, 13, 13, 13, 13, 13, 13, 13, 13, 13, 13, 13,
    13, 13, 13, 13, 13, 13, 13, 13, 13, 13, 13, 13, 13, 13, 13, 13,
    13, 13, 13, 13, 13, 13, 13, 13, 13, 13, 13, 13, 13, 13, 13, 13,
    13, 13, 13, 13, 13, 13, 13, 13, 13, 13, 13, 13, 13, 13, 13, 13,
    13, 13, 13, 13, 13, 13, 13, 13, 13, 13, 13, 13, 13, 13, 13, 13,
    13, 13, 13, 13, 13, 13, 13, 13, 13, 13, 13, 13, 13, 13, 13, 13,
    13, 13, 13, 13, 13, 13, 13, 13, 13, 13, 13, 13, 13, 13, 13, 13,
];

/// The byte at `index`, or 0 past the end.
#[inline]
pub(crate) fn byte_at(s: &[u8], index: usize) -> u8
    ensures { result ≡ slice_index s.now index }
{
    s.get(index).copied().unwrap_or(0)
}

/// The first byte, or 0.
#[inline]
pub(crate) fn first(s: &[u8]) -> u8
    ensures { result ≡ reading.first s.now }
{
    byte_at(s, 0)
}

/// Whether this is white space: a tab or a space.
fn is_blank(b: u8) -> bool
    ensures { result ≡ spec.is_blank b }
{
    b == b'\t' || b == b' '
}

/// Whether a comment may hold this byte.
fn is_comment_byte(b: u8) -> bool
    ensures { result ≡ spec.is_comment_byte b }
{
    CLASSES[b as usize] & COMMENT != 0
}

/// Whether a bare key may hold this byte.
pub(crate) fn is_bare(b: u8) -> bool
    ensures { result ≡ spec.is_bare b }
{
    CLASSES[b as usize] & BARE != 0
}

/// Whether a basic string may hold this byte as it is.
pub(crate) fn is_basic_ch(b: u8) -> bool
    ensures { result ≡ spec.is_basic_ch b }
{
    CLASSES[b as usize] & BASIC != 0
}

/// Whether a literal string may hold this byte.
fn is_literal_ch(b: u8) -> bool
    ensures { result ≡ spec.is_literal_ch b }
{
    CLASSES[b as usize] & LITERAL != 0
}

/// Whether this is a digit of the base.
fn is_digit(b: u8, base: u32) -> bool
    requires low { 2 ≤ base }
    requires high { base ≤ 36 }
    ensures { result ≡ chars.is_digit b base }
{
    char::from(b).is_digit(base)
}

/// Whether a byte is of the class.
pub(crate) fn is_in(class: Class, b: u8) -> bool
    ensures { result ≡ class_test class b }
{
    match class {
        Class::Blank => is_blank(b),
        Class::Comment => is_comment_byte(b),
        Class::Bare => is_bare(b),
        Class::Basic => is_basic_ch(b),
        Class::Literal => is_literal_ch(b),
        Class::Unescaped => b != b'\\',
        Class::Spacing => is_blank(b) || b == b'\n' || b == b'\r',
        Class::Decimal => is_digit(b, 10),
        Class::Hexadecimal => is_digit(b, 16),
        Class::Octal => is_digit(b, 8),
        Class::Binary => is_digit(b, 2),
    }
}

/// How many bytes at the front are of the class.
pub(crate) fn run_len(s: &[u8], class: Class) -> usize
    ensures len { result ≡ prefix_len (class_test class) s.now }
    ensures within { result ≤ length s.now }
{
    s.iter().take_while(|b| is_in(class, **b)).count()
}

/// The slice behind the first `n` bytes; empty where there are fewer.
pub(crate) fn skip(s: &[u8], n: usize) -> &[u8]
    ensures { result.now ≡ drop n s.now }
{
    if n <= s.len() { &s[n..] } else { &[] }
}

/// The slice behind the longest run of bytes of the class.
pub(crate) fn past_run(s: &[u8], class: Class) -> &[u8]
    ensures { result.now ≡ reading.after (class_test class) s.now }
{
    skip(s, run_len(s, class))
}

/// The slice behind the first byte, where that byte is `b`.
pub(crate) fn past(s: &[u8], b: u8) -> Option<&[u8]>
    ensures { option_map (λ rest. rest.now) result ≡ reading.past b s.now }
{
    if first(s) == b {
        Some(skip(s, 1))
    } else {
        None
    }
}
