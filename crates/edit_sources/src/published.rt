//! The time at or before which a version has to be published.
ghost use Rattle.std.specs.Prelude.{◌≡◌, option_and_then, option_map};
ghost use Rattle.edit_sources.specs.Published.{days_before, instant_of, is_by, publish_time};
ghost use Rattle.serde_json.specs.View.{view};

use crate::index_lines::text;
use jiff::Timestamp;
use serde_json::Value;

/// A time at or before which a version has to be published, in nanoseconds since the Unix epoch.
#[derive(Clone, Copy, Debug, PartialEq, Eq, Drop)]
pub struct PublishedBefore {
    pub nanosecond: i128,
}

impl PublishedBefore {
    /// Reads a time as RFC 3339 has it, as `2025-05-01T12:00:00Z`; `None` for another text.
    pub fn parse(text: &str) -> Option<PublishedBefore>
        ensures { option_map (λ bound. bound.nanosecond) result ≡ instant_of text.now }
    {
        let nanosecond = instant(text)?;
        Some(PublishedBefore { nanosecond })
    }

    /// The bound that lies a number of days, of 24 hours each, before a time as RFC 3339 has it; `None` for
    /// another text.
    pub fn days_before(now: &str, days: u32) -> Option<PublishedBefore>
        ensures { option_map (λ bound. bound.nanosecond) result
            ≡ option_map (days_before days) (instant_of now.now) }
    {
        match now.parse::<Timestamp>() {
            Ok(now) => Some(bound_before(now, days)),
            Err(_) => None,
        }
    }
}

/// The bound that lies a number of days before an instant.
fn bound_before(now: Timestamp, days: u32) -> PublishedBefore
    ensures { result.nanosecond ≡ days_before days now.nanosecond }
{
    PublishedBefore {
        nanosecond: now.as_nanosecond() - days as i128 * 86_400_000_000_000,
    }
}

/// The nanoseconds from the Unix epoch to the instant of a text; `None` where the text is not a time.
fn instant(text: &str) -> Option<i128>
    ensures { result ≡ instant_of text.now }
{
    match text.parse::<Timestamp>() {
        Ok(time) => Some(time.as_nanosecond()),
        Err(_) => None,
    }
}

/// The instant of a text, if there is one; `None` also where the text is not a time.
pub(crate) fn optional_instant(text: Option<&str>) -> Option<i128>
    ensures { result ≡ option_and_then instant_of (option_map (λ s. s.now) text.entry) }
{
    match text {
        Some(text) => instant(text),
        None => None,
    }
}

/// The time at which a version was published, if its line says so.
pub(crate) fn publish_time(value: &Value) -> Option<i128>
    ensures { result ≡ publish_time (view value.now) }
{
    optional_instant(text(value.get("pubtime")))
}

/// Whether a time is known, and at or before the bound.
pub(crate) fn is_by(bound: PublishedBefore, time: Option<i128>) -> bool
    ensures { result ≡ is_by bound time }
{
    match time {
        Some(time) => time <= bound.nanosecond,
        None => false,
    }
}
