//! Tests of reports and of the calls that follow an upgrade, by the public calls of `edit_report` and
//! `edit_update` that the program does not make.

mod messages;
mod outputs;
mod updates;
