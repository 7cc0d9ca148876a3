//! Writes a dependency as a new entry (Cargo reference, "Specifying Dependencies").
ghost use Rattle.std.specs.Prelude.{◌≡◌, ◌++◌, ◌∷◌, [], true, IfOk, IfErr, OnOk, codes, option_copied, option_map, string_bytes};
ghost use Rattle.edit_base.specs.Errors.{IsMemory};
ghost use Rattle.edit_tree.specs.NewItems.{a_string, a_truth};
ghost use Rattle.edit_document.specs.NewItemViews.{new_item_view, new_pair_views, new_value_view};
ghost use Rattle.edit_record.specs.EntryRecords.{key_of};
ghost use Rattle.edit_record.specs.NewEntries.{is_short, item_of, list_member, option_members, origin_members, path_members, repository_members, text_member, truth_member, written_name, written_registry};
ghost use Rattle.edit_record.specs.HasRoundTrip.{IsPlain, HasRoundTrip};
ghost use Rattle.edit_record.specs.RecordViews.{record_view, repository_view, source_view, texts_view};
ghost use Rattle.edit_record.specs.RelativePaths.{path_field, replace_backslashes};

use super::Dependency;
use super::sources::{GitSource, PathSource, Source};
use edit_base::errors::CargoResult;
use edit_base::paths::relative;
use edit_document::{NewItem, NewValue};
use std::alloc::{AllocError, Global};

/// Replaces each backslash with a slash.
fn replace_backslashes(alloc: Global, text: &str) -> Result<String, AllocError>
    ensures { IfOk result (λ s. string_bytes s ≡ replace_backslashes text.now) }
{
    text.replace(alloc, '\\', "/")
}

/// The value of `path`: the path relative to `root`, with slashes only.
pub fn path_field(alloc: Global, root: &str, path: &str) -> CargoResult<String>
    ensures text { IfOk result (λ s. string_bytes s ≡ path_field root.now path.now) }
    ensures error { IfErr result IsMemory }
{
    let way = relative(alloc, path, root)?;
    Ok(replace_backslashes(alloc, way.as_str())?)
}

/// Appends a key with a value.
fn push_value(
    alloc: Global,
    members: &mut Vec<(String, NewValue)>,
    name: &str,
    value: NewValue,
) -> Result<(), AllocError>
    ensures { OnOk result (new_pair_views members.new.items
        ≡ new_pair_views members.old.items ++ (name.now, new_value_view value) ∷ []) }
{
    let name = String::from_str(alloc, name)?;
    members.push((name, value))?;
    Ok(())
}

/// Appends a key with a string, if there is one.
fn push_text(
    alloc: Global,
    members: &mut Vec<(String, NewValue)>,
    name: &str,
    text: Option<&String>,
) -> Result<(), AllocError>
    ensures { OnOk result (new_pair_views members.new.items ≡ new_pair_views members.old.items
        ++ text_member name.now (option_map string_bytes (option_copied text.entry))) }
{
    match text {
        Some(text) => push_value(alloc, members, name, NewValue::Str(text.clone()?)),
        None => Ok(()),
    }
}

/// Appends a key with a boolean, if there is one.
fn push_truth(
    alloc: Global,
    members: &mut Vec<(String, NewValue)>,
    name: &str,
    truth: Option<bool>,
) -> Result<(), AllocError>
    ensures { OnOk result (new_pair_views members.new.items
        ≡ new_pair_views members.old.items ++ truth_member name.now truth) }
{
    match truth {
        Some(truth) => push_value(alloc, members, name, NewValue::Bool(truth)),
        None => Ok(()),
    }
}

/// Appends a key with an array of strings, if there is one.
fn push_list(
    alloc: Global,
    members: &mut Vec<(String, NewValue)>,
    name: &str,
    texts: Option<&Vec<String>>,
) -> Result<(), AllocError>
    ensures { OnOk result (new_pair_views members.new.items ≡ new_pair_views members.old.items
        ++ list_member name.now (option_map texts_view (option_copied texts.entry))) }
{
    match texts {
        Some(texts) => push_value(alloc, members, name, NewValue::Strings(texts.clone()?)),
        None => Ok(()),
    }
}

/// Appends the keys of a Git source.
fn push_repository(
    alloc: Global,
    members: &mut Vec<(String, NewValue)>,
    source: &GitSource,
) -> Result<(), AllocError>
    ensures { OnOk result (new_pair_views members.new.items
        ≡ new_pair_views members.old.items ++ repository_members (repository_view source.now)) }
{
    push_text(alloc, members, "git", Some(&source.git))?;
    push_text(alloc, members, "branch", source.branch.as_ref())?;
    push_text(alloc, members, "tag", source.tag.as_ref())?;
    push_text(alloc, members, "rev", source.rev.as_ref())?;
    push_text(alloc, members, "version", source.version.as_ref())
}

/// Appends the keys of a path source.
fn push_path(
    alloc: Global,
    root: &str,
    members: &mut Vec<(String, NewValue)>,
    source: &PathSource,
) -> CargoResult<()>
    ensures ok { OnOk result (new_pair_views members.new.items
        ≡ new_pair_views members.old.items ++ path_members root.now (string_bytes source.now.path)
        (option_map string_bytes source.now.version)) }
    ensures error { IfErr result IsMemory }
{
    push_text(alloc, members, "version", source.version.as_ref())?;
    let path = path_field(alloc, root, source.path.as_str())?;
    push_value(alloc, members, "path", NewValue::Str(path))?;
    Ok(())
}

/// Appends the keys of a source.
fn push_source(
    alloc: Global,
    root: &str,
    members: &mut Vec<(String, NewValue)>,
    source: &Source,
) -> CargoResult<()>
    ensures ok { OnOk result (new_pair_views members.new.items
        ≡ new_pair_views members.old.items ++ origin_members root.now (Some (source_view source.now))) }
    ensures error { IfErr result IsMemory }
{
    match source {
        Source::Registry(source) => push_text(alloc, members, "version", Some(&source.version))?,
        Source::Path(source) => push_path(alloc, root, members, source)?,
        Source::Git(source) => push_repository(alloc, members, source)?,
        Source::Workspace(_) => push_truth(alloc, members, "workspace", Some(true))?,
    }
    Ok(())
}

/// The one key of an entry that inherits everything from the workspace: `workspace = true`.
fn workspace_members(alloc: Global) -> Result<Vec<(String, NewValue)>, AllocError>
    ensures { IfOk result (λ v. new_pair_views v.items ≡ (codes "workspace", a_truth true) ∷ []) }
{
    let mut members = Vec::new(alloc);
    push_truth(alloc, &mut members, "workspace", Some(true))?;
    Ok(members)
}

impl Dependency {
    /// Whether nothing but the source has to be written.
    fn is_short(&self) -> bool
        ensures { result ≡ is_short (record_view self.now) }
    {
        self.features.is_none()
            && self.registry.is_none()
            && self.rename.is_none()
            && !self.optional.unwrap_or(false)
            && self.default_features.unwrap_or(true)
    }

    /// The registry to be written: only with a version.
    fn written_registry(&self) -> Option<&String>
        ensures { option_map string_bytes (option_copied result) ≡ written_registry (record_view self.now) }
    {
        match self.version() {
            Some(_) => self.registry.as_ref(),
            None => None,
        }
    }

    /// The crate's name, if the key differs from it.
    fn written_name(&self) -> Option<&String>
        ensures { option_map string_bytes (option_copied result) ≡ written_name (record_view self.now) }
    {
        match &self.rename {
            Some(_) => Some(&self.name),
            None => None,
        }
    }

    /// Appends the keys that follow the source.
    fn push_options(
        &self,
        alloc: Global,
        members: &mut Vec<(String, NewValue)>,
    ) -> Result<(), AllocError>
        ensures { OnOk result (new_pair_views members.new.items
            ≡ new_pair_views members.old.items ++ option_members (record_view self.now)) }
    {
        push_text(alloc, members, "registry", self.written_registry())?;
        push_text(alloc, members, "package", self.written_name())?;
        push_truth(alloc, members, "default-features", self.default_features)?;
        push_list(alloc, members, "features", self.features.as_ref())?;
        push_truth(alloc, members, "optional", self.optional)
    }

    /// The keys of an inline table with everything that is set.
    fn members(&self, alloc: Global, root: &str) -> CargoResult<Vec<(String, NewValue)>>
        ensures ok { IfOk result (λ v. new_pair_views v.items
            ≡ origin_members root.now (record_view self.now).origin
            ++ option_members (record_view self.now)) }
        ensures error { IfErr result IsMemory }
    {
        let mut members = Vec::new(alloc);
        if let Some(source) = &self.source {
            push_source(alloc, root, &mut members, source)?;
        }
        self.push_options(alloc, &mut members)?;
        Ok(members)
    }

    /// Converts the dependency into a new entry, with its path relative to `root`.
    fn new_item(&self, alloc: Global, root: &str) -> CargoResult<NewItem>
        ensures item { IfOk result (λ i. new_item_view i ≡ item_of root.now (record_view self.now)) }
        ensures error { IfErr result IsMemory }
    {
        match &self.source {
            Some(Source::Registry(source)) if self.is_short() => {
                Ok(NewItem::Value(NewValue::Str(source.version.clone()?)))
            }
            Some(Source::Workspace(_)) if self.is_short() => Ok(NewItem::Inline {
                members: workspace_members(alloc)?,
                dotted: true,
            }),
            _ => Ok(NewItem::Inline {
                members: self.members(alloc, root)?,
                dotted: false,
            }),
        }
    }

    /// Converts the dependency into a new entry of a manifest in the folder `crate_root`. That folder and
    /// the path of a source have to be absolute, the folder without a segment `..`.
    ///
    /// A registry source alone becomes its version string, and a workspace source alone the dotted key
    /// `workspace = true`. Anything else becomes an inline table: the source, with its path relative to the
    /// folder, and then `registry` with a version, `package` under another key, `default-features`,
    /// `features` and `optional`, each if it is set.
    pub fn to_toml(&self, alloc: Global, crate_root: &str) -> CargoResult<NewItem>
        ensures item { IfOk result (λ i. new_item_view i ≡ item_of crate_root.now (record_view self.now)) }
        ensures round_trip { IfOk result (λ i. IsPlain (record_view self.now)
            → HasRoundTrip crate_root.now (key_of (record_view self.now)) (new_item_view i)) }
        ensures error { IfErr result IsMemory }
    {
        self.new_item(alloc, crate_root)
    }
}
