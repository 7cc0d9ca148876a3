//! The examples of examples/workspace and examples/versions, in `/w`, as tables. The expected manifests
//! were worked out by hand.

/// A run over an example. Of each file there is a row, the path and the text; of a manifest that is to change
/// a third field, the text afterwards, and the rows are in the order in which they are written.
#[derive(Clone, Copy)]
pub(super) struct Example {
    pub(super) args: &'static str,
    pub(super) manifests: &'static str,
    pub(super) others: &'static str,
    pub(super) index: &'static str,
    /// The possible states of the manifests, each old or new: none is new after an old one.
    pub(super) whole: &'static str,
    /// The possible states of the manifests where the write of one failed, which may have any contents.
    pub(super) cut: &'static str,
}

pub(super) const WORKSPACE: Example = Example {
    args: "upgrade --metadata-json metadata.json",
    manifests: RAISED,
    others: OF_RAISED,
    index: INDEX,
    whole: "oooo nooo nnoo nnno nnnn",
    cut: "xooo nxoo nnxo nnnx",
};

pub(super) const VERSIONS: Example = Example {
    args: "set-version --bump minor --workspace --metadata-json metadata.json",
    manifests: BUMPED,
    others: OF_BUMPED,
    index: "/w/index|",
    whole: "ooo noo nno nnn",
    cut: "xoo nxo nnx",
};

const RAISED: &str = r#"/w/Cargo.toml|[workspace]
members = ["pier", "crane", "tide"]
resolver = "2"

# What the members share.
[workspace.dependencies]
serde = { version = "1.0.100", features = ["derive"] } # keep derive
log = "0.4"
|[workspace]
members = ["pier", "crane", "tide"]
resolver = "2"

# What the members share.
[workspace.dependencies]
serde = { version = "1.0.219", features = ["derive"] } # keep derive
log = "0.4"
§/w/pier/Cargo.toml|[package]
name = "pier"
version = "0.3.0"
edition = "2021"
rust-version = "1.70"

[dependencies]
serde.workspace = true
json = { package = "serde_json", version = "1.0.50" } # renamed

[target.'cfg(unix)'.dependencies]
libc = "0.2.80"
|[package]
name = "pier"
version = "0.3.0"
edition = "2021"
rust-version = "1.70"

[dependencies]
serde.workspace = true
json = { package = "serde_json", version = "1.0.140" } # renamed

[target.'cfg(unix)'.dependencies]
libc = "0.2.172"
§/w/crane/Cargo.toml|[package]
name = "crane"
version = "0.3.0"
edition = "2021"
rust-version = "1.74"

[dependencies]
pier = { path = "../pier" }
rope = { git = "https://example.com/rope.git" }

[dependencies.winch]
version = "2.1"
registry = "yard" # its address stands in .cargo/config.toml
|[package]
name = "crane"
version = "0.3.0"
edition = "2021"
rust-version = "1.74"

[dependencies]
pier = { path = "../pier" }
rope = { git = "https://example.com/rope.git" }

[dependencies.winch]
version = "2.4"
registry = "yard" # its address stands in .cargo/config.toml
§/w/tide/Cargo.toml|[package]
name = "tide"
version = "0.1.2"
edition = "2021"
rust-version = "1.74"

[dependencies]
log = "0.4.5"
serde_json = "1"

[dev-dependencies]
libc = "=0.2.90" # the last that this board boots with
|[package]
name = "tide"
version = "0.1.2"
edition = "2021"
rust-version = "1.74"

[dependencies]
log = "0.4.30"
serde_json = "1"

[dev-dependencies]
libc = "=0.2.90" # the last that this board boots with
"#;

const OF_RAISED: &str = r#"/w/metadata.json|{"workspace_root":"/w","workspace_members":[
"path+file:///w/pier#0.3.0",
"path+file:///w/crane#0.3.0",
"path+file:///w/tide#0.1.2"],"packages":[
{"name":"pier","version":"0.3.0","id":"path+file:///w/pier#0.3.0",
"source":null,
"manifest_path":"/w/pier/Cargo.toml","rust_version":"1.70"},
{"name":"crane","version":"0.3.0","id":"path+file:///w/crane#0.3.0",
"source":null,
"manifest_path":"/w/crane/Cargo.toml","rust_version":"1.74"},
{"name":"tide","version":"0.1.2","id":"path+file:///w/tide#0.1.2",
"source":null,
"manifest_path":"/w/tide/Cargo.toml","rust_version":"1.74"},
{"name":"serde","version":"1.0.188","id":"registry+file:///w/index/shore#serde@1.0.188",
"source":"registry+file:///w/index/shore",
"manifest_path":"/home/of/cargo/serde-1.0.188/Cargo.toml","rust_version":null},
{"name":"rope","version":"0.2.0","id":"git+https://example.com/rope.git#0.2.0",
"source":"git+https://example.com/rope.git#5f3c9d1",
"manifest_path":"/home/of/cargo/rope/Cargo.toml","rust_version":null}]}
§/w/.cargo/config.toml|[source.crates-io]
replace-with = "shore"

[source.shore]
registry = "file:///w/index/shore"

[registries.yard]
index = "file:///w/index/yard"
"#;

const INDEX: &str = r#"/w/index/shore/3/l/log|{"name":"log","vers":"0.4.5"}
{"name":"log","vers":"0.4.20"}
{"name":"log","vers":"0.4.30"}
{"name":"log","vers":"0.4.31","rust_version":"1.82"}
§/w/index/shore/li/bc/libc|{"name":"libc","vers":"0.2.80"}
{"name":"libc","vers":"0.2.90"}
{"name":"libc","vers":"0.2.172"}
§/w/index/shore/se/rd/serde|{"name":"serde","vers":"1.0.100"}
{"name":"serde","vers":"1.0.188"}
{"name":"serde","vers":"1.0.219"}
{"name":"serde","vers":"1.0.220","yanked":true}
§/w/index/shore/se/rd/serde_json|{"name":"serde_json","vers":"1.0.50"}
{"name":"serde_json","vers":"1.0.140"}
§/w/index/yard/wi/nc/winch|{"name":"winch","vers":"2.1.0"}
{"name":"winch","vers":"2.4.1"}
{"name":"winch","vers":"3.0.0"}
"#;

const BUMPED: &str = r#"/w/Cargo.toml|[workspace]
members = ["core", "app", "tool"]
resolver = "2"

[workspace.package]
version = "0.4.2" # of all but the tool

[workspace.dependencies]
harbor-core = { path = "core", version = "0.4" }
|[workspace]
members = ["core", "app", "tool"]
resolver = "2"

[workspace.package]
version = "0.5.0" # of all but the tool

[workspace.dependencies]
harbor-core = { path = "core", version = "0.5" }
§/w/app/Cargo.toml|[package]
name = "harbor-app"
version.workspace = true
edition = "2021"

[dependencies]
core = { package = "harbor-core", path = "../core", version = "^0.4.2" } # renamed

[dev-dependencies]
harbor-tool = { path = "../tool", version = "1.0.0" }
|[package]
name = "harbor-app"
version.workspace = true
edition = "2021"

[dependencies]
core = { package = "harbor-core", path = "../core", version = "^0.5.0" } # renamed

[dev-dependencies]
harbor-tool = { path = "../tool", version = "1.1.0" }
§/w/tool/Cargo.toml|[package]
name = "harbor-tool"
version = "1.0.0"
edition = "2021"

[target.'cfg(unix)'.dependencies.harbor-core]
path = "../core"
version = "~0.4.1"
|[package]
name = "harbor-tool"
version = "1.1.0"
edition = "2021"

[target.'cfg(unix)'.dependencies.harbor-core]
path = "../core"
version = "~0.5.0"
"#;

const OF_BUMPED: &str = r#"/w/metadata.json|{"workspace_root":"/w","workspace_members":[
"path+file:///w/core#harbor-core@0.4.2",
"path+file:///w/app#harbor-app@0.4.2",
"path+file:///w/tool#harbor-tool@1.0.0"],"packages":[
{"name":"harbor-core","version":"0.4.2","id":"path+file:///w/core#harbor-core@0.4.2",
"source":null,
"manifest_path":"/w/core/Cargo.toml","rust_version":null},
{"name":"harbor-app","version":"0.4.2","id":"path+file:///w/app#harbor-app@0.4.2",
"source":null,
"manifest_path":"/w/app/Cargo.toml","rust_version":null},
{"name":"harbor-tool","version":"1.0.0","id":"path+file:///w/tool#harbor-tool@1.0.0",
"source":null,
"manifest_path":"/w/tool/Cargo.toml","rust_version":null}]}
§/w/core/Cargo.toml|[package]
name = "harbor-core"
version.workspace = true
edition = "2021"
"#;
