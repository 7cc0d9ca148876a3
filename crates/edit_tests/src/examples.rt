//! Examples for callers of the library, by the public names of `cargo_edit` alone. CALLING.md of `cargo_edit`
//! shows these functions.

mod manifest;
mod requirement;
mod version;
mod workspace;
