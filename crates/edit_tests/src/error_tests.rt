//! Tests of errors. Rows: the number and the message, the number, and the fields of the error, separated by
//! `@`; a row ends at `~`.
mod error_values;

use crate::assertion_helpers::error_number_and_text;
use crate::rows::{TILDES, check_rows};
use error_values::error_of_number;
use std::alloc::Global;
use std::process::Abort;

/// Each error, and each form of those with several.
const REFUSALS: &str = "\
1 Unable to parse Cargo.toml|1|~\
2 Failed to read manifest contents|2|~\
3 Failed to look at a path|3|kind~\
3 Failed to read a file|3|read~\
3 Failed to write updated Cargo.toml|3|write~\
4 can only edit absolute paths, got a/Cargo.toml|4|a/Cargo.toml~\
5 Failed to read manifest contents|5|~\
6 Failed to get cargo file metadata|6|~\
7 Unable to find Cargo.toml for /w|7|/w~\
8 The table `dependencies` could not be found.|8|dependencies~\
9 The dependency `serde` could not be found in `target.unix.dependencies`.|9|serde@target.unix.dependencies~\
10 Missing version field|10|~\
11 Expect version to be a string|11|~\
12 Invalid dependency type|12|~\
13 No version literal to set|13|~\
14 Invalid version requirement `one`|14|one~\
15 Support for modifying >1 is currently unsupported|15|>1~\
16 Cannot increment the alpha field for 1.0.0-rc.1|16|alpha@1.0.0-rc.1~\
17 This version scheme is not supported. Use format like `pre`, `dev` or `alpha.1` for prerelease symbol|17|~\
18 A number of 1.2.18446744073709551615 is at its end|18|~\
19 Invalid build metadata `a_b`|19|a_b~\
20 Invalid name `a/b c`: /,  |20|a/b c@/,  ~\
21 Found integer for version when string was expected for serde|21|version@serde~\
22 `features.workspace = false` is unsupported|22|features~\
23 Unrecognized dependency source for `serde`|23|serde~\
24 Use of `default_features` in `serde` is unsupported, please switch to `default-features`|24|serde~\
25 Unrecognized dependency entry format for `serde`|25|serde~\
26 rust-version must be a value like `1.32`|26|~\
27 Registry scheme `git` is not supported|27|git~\
28 invalid file path file://host/index|28|file://host/index~\
29 Invalid crate name `é`|29|é~\
30 Invalid index line 7|30|~\
31 invalid cargo config at /w/.cargo/config.toml|31|/w/.cargo/config.toml~\
32 The registry 'mine' could not be found|32|mine~\
33 The source 'mirror' could not be found|33|mirror~\
34 missing `registry`|34|~\
35 invalid `registry` field|35|~\
36 Invalid workspace metadata|36|~\
37 Two members share the folder /w/a|37|/w/a~\
38 Found virtual manifest, but this command requires running against an actual package in this workspace. \
Try adding `--workspace`.|38|~\
39 package a doesn't exist|39|a~\
39 packages a, b don't exist|39|a@b~\
40 Cannot exclude a, b package(s) when c, d package(s) modify `workspace.package.version`|40|a, b@c, d~\
41 Cannot downgrade from 2.0.0 to 1.0.0|41|2.0.0@1.0.0~\
42 cannot upgrade due to `--locked`|42|~\
43 dependency a doesn't exist|43|a~\
43 dependencies a, b, c don't exist|43|a@b@c~\
44 `cargo add` has been merged into cargo 1.62+ as of cargo-edit 0.10, either\n\
- Upgrade cargo, like with `rustup update`\n\
- Downgrade `cargo-edit`, like with `cargo install cargo-edit --version 0.9.1`|44|add~\
44 `cargo rm` has been merged into cargo 1.66+ as of cargo-edit 0.12, either\n\
- Upgrade cargo, like with `rustup update`\n\
- Downgrade `cargo-edit`, like with `cargo install cargo-edit --version 0.11`|44|rm~\
45 Failed to write message|45|~\
46 out of memory|46|~\
47 error: unexpected argument '--x' found\n\nUsage: edit\n\nFor more information, try '--help'.\n|47|~\
48 permission denied|48|~\
49 Edit would change more than its place|49|~\
50 Invalid policy|50|";

/// The number and the message of the error of a row.
fn text(rt: &impl Abort, alloc: Global, number: &str, parts: &str) -> String {
    error_number_and_text(
        rt,
        alloc,
        error_of_number(rt, alloc, number.parse().unwrap_or(0), parts),
    )
}

#[test]
fn errors_have_numbers_and_messages(rt: HostRuntime) {
    check_rows(&rt, rt.alloc(), REFUSALS, TILDES, text);
}
