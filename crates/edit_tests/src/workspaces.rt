//! Tests of workspaces, of the files that an upgrade reads, and of the places of errors, by the public
//! calls of `edit_metadata` and `edit_steps`.

mod inputs;
mod places;
mod sources;
mod workspaces;
