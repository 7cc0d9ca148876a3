//! Tests of plans, by public calls.

mod inputs;
mod version_failures;
