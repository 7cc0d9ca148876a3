//! An entry of a dependency table as a record (Cargo reference, "Specifying Dependencies").
ghost use Rattle.std.specs.Prelude.{◌≡◌, ◌++◌, [], None, Some, IfOk, IfErr, option_copied, option_map, string_bytes, unwrap_or};
ghost use Rattle.edit_base.specs.Errors.{IsMemory};
ghost use Rattle.edit_record.specs.EntryRecords.{key_of};
ghost use Rattle.edit_record.specs.RecordViews.{available_view, record_view, texts_view};
ghost use Rattle.edit_record.specs.Records.{IsBare, version_of};

mod conversions;
mod copies;
mod members;
mod read;
mod sources;
mod texts;
mod write;

pub use copies::append_texts;
use copies::{copied_lists, copied_pair};
use edit_base::errors::CargoResult;
pub use members::features_at;
use sources::clone_source;
pub use sources::{GitSource, PathSource, RegistrySource, Source, WorkspaceSource};
use std::alloc::Global;
use std::collections::BTreeMap;
pub use write::path_field;

/// An entry of a dependency table (Cargo reference, "Specifying Dependencies").
#[derive(Debug, PartialEq, Eq, PartialOrd, Ord, Hash, Drop)]
pub struct Dependency {
    /// The crate's name.
    pub name: String,
    pub optional: Option<bool>,
    pub features: Option<Vec<String>>,
    pub default_features: Option<bool>,
    pub inherited_features: Option<Vec<String>>,
    pub source: Option<Source>,
    /// The name of the registry, if the entry has one.
    pub registry: Option<String>,
    /// The key of the entry, if it differs from the crate's name.
    pub rename: Option<String>,
    /// The features that the crate defines, each with the features that it enables.
    pub available_features: BTreeMap<String, Vec<String>>,
}

impl Dependency {
    /// Returns a dependency with this name and nothing else set.
    pub fn new(alloc: Global, name: &str) -> CargoResult<Dependency>
        ensures ok { IfOk result (λ d. IsBare name.now d × (d.source ≡ None)) }
        ensures error { IfErr result IsMemory }
    {
        Ok(Dependency {
            name: String::from_str(alloc, name)?,
            optional: None,
            features: None,
            default_features: None,
            inherited_features: None,
            source: None,
            registry: None,
            rename: None,
            available_features: BTreeMap::new(alloc),
        })
    }

    /// Returns the dependency with its source replaced.
    pub fn set_source(self, source: Source) -> Dependency
        ensures { result ≡ record self { source = Some source } }
    {
        Dependency {
            source: Some(source),
            ..self
        }
    }

    /// Returns the dependency with the features that its crate defines replaced.
    pub fn set_available_features(self, features: BTreeMap<String, Vec<String>>) -> Dependency
        ensures { result ≡ record self { available_features = features } }
    {
        Dependency {
            available_features: features,
            ..self
        }
    }

    /// Returns the dependency with `optional` set.
    pub fn set_optional(self, optional: bool) -> Dependency
        ensures { result ≡ record self { optional = Some optional } }
    {
        Dependency {
            optional: Some(optional),
            ..self
        }
    }

    /// Returns the dependency with its features replaced.
    pub fn set_features(self, features: Vec<String>) -> Dependency
        ensures { result ≡ record self { features = Some features } }
    {
        let features = Some(features);
        Dependency { features, ..self }
    }

    /// Returns the dependency with these features appended to its own.
    pub fn extend_features(self, _alloc: Global, features: Vec<String>) -> CargoResult<Dependency>
        ensures ok { IfOk result (λ d. record_view d ≡ record (record_view self) {
          features = Some (unwrap_or (record_view self).features [] ++ texts_view features);
        }) }
        ensures preserved { IfOk result (λ d. d.available_features ≡ self.available_features) }
        ensures error { IfErr result IsMemory }
    {
        let features = append_texts(self.features, features)?;
        Ok(Dependency {
            features: Some(features),
            ..self
        })
    }

    /// Returns the dependency with `default_features` set.
    pub fn set_default_features(self, default_features: bool) -> Dependency
        ensures { result ≡ record self { default_features = Some default_features } }
    {
        Dependency {
            default_features: Some(default_features),
            ..self
        }
    }

    /// Returns the dependency with the features that it inherits from the workspace's entry replaced.
    pub fn set_inherited_features(self, features: Vec<String>) -> Dependency
        ensures { result ≡ record self { inherited_features = Some features } }
    {
        Dependency {
            inherited_features: Some(features),
            ..self
        }
    }

    /// Returns the dependency with its key set.
    pub fn set_rename(self, alloc: Global, rename: &str) -> CargoResult<Dependency>
        ensures ok { IfOk result (λ d. record_view d
            ≡ record (record_view self) { rename = Some rename.now }) }
        ensures preserved { IfOk result (λ d. d.available_features ≡ self.available_features) }
        ensures error { IfErr result IsMemory }
    {
        let rename = String::from_str(alloc, rename)?;
        Ok(Dependency {
            rename: Some(rename),
            ..self
        })
    }

    /// Returns the dependency with its registry set.
    pub fn set_registry(self, alloc: Global, registry: &str) -> CargoResult<Dependency>
        ensures ok { IfOk result (λ d. record_view d
            ≡ record (record_view self) { registry = Some registry.now }) }
        ensures preserved { IfOk result (λ d. d.available_features ≡ self.available_features) }
        ensures error { IfErr result IsMemory }
    {
        let registry = String::from_str(alloc, registry)?;
        Ok(Dependency {
            registry: Some(registry),
            ..self
        })
    }

    /// Returns a deep copy of the dependency.
    pub fn try_clone(&self, alloc: Global) -> CargoResult<Dependency>
        ensures ok { IfOk result (λ d. record_view d ≡ record_view self.now) }
        ensures preserved { IfOk result (λ d. available_view d ≡ available_view self.now) }
        ensures error { IfErr result IsMemory }
    {
        let (registry, rename) = copied_pair(self.registry.as_ref(), self.rename.as_ref())?;
        let (features, inherited_features) = copied_lists(
            self.features.as_ref(),
            self.inherited_features.as_ref(),
        )?;
        let source = clone_source(alloc, self.source.as_ref())?;
        Ok(Dependency {
            name: self.name.clone()?,
            optional: self.optional,
            features,
            default_features: self.default_features,
            inherited_features,
            source,
            registry,
            rename,
            available_features: self.available_features.clone()?,
        })
    }

    /// The source of the dependency.
    pub fn source(&self) -> Option<&Source>
        ensures { option_copied result ≡ self.now.source }
    {
        self.source.as_ref()
    }

    /// The version requirement of the source; `None` for a workspace source.
    pub fn version(&self) -> Option<&str>
        ensures { option_map (λ s. s.now) result ≡ version_of self.now }
    {
        match &self.source {
            Some(source) => source.version(),
            None => None,
        }
    }

    /// The name of the registry, if the entry has one.
    pub fn registry(&self) -> Option<&str>
        ensures { option_map (λ s. s.now) result ≡ option_map string_bytes self.now.registry }
    {
        self.registry.as_ref().map(|text| text.as_str())
    }

    /// The key of the entry, if it differs from the crate's name.
    pub fn rename(&self) -> Option<&str>
        ensures { option_map (λ s. s.now) result ≡ option_map string_bytes self.now.rename }
    {
        self.rename.as_ref().map(|text| text.as_str())
    }

    /// Whether the crate's default features are enabled; `None` where the entry does not set it.
    pub fn default_features(&self) -> Option<bool>
        ensures { result ≡ self.now.default_features }
    {
        self.default_features
    }

    /// Whether the dependency is optional; `None` where the entry does not set it.
    pub fn optional(&self) -> Option<bool>
        ensures { result ≡ self.now.optional }
    {
        self.optional
    }

    /// The key of the entry: `rename`, or else the crate's name.
    pub fn toml_key(&self) -> &str
        ensures { result.now ≡ key_of (record_view self.now) }
    {
        match &self.rename {
            Some(key) => key.as_str(),
            None => self.name.as_str(),
        }
    }
}
