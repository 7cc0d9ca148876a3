//! Credential providers as they are configured.

use cli_machine::{SettingsFile, value_at};
use edit_base::CargoResult;
use edit_base::paths::{folder, join};
use std::alloc::AllocError;
use toml::Value;

/// A configured provider: the words of its command line.
#[derive(Drop)]
pub(crate) struct ProviderCommand {
    pub(crate) words: Vec<String>,
}

impl ProviderCommand {
    /// The program, or the name of a built-in provider.
    pub(crate) fn name(&self) -> &str {
        match self.words.first() {
            Some(word) => word.as_str(),
            None => "",
        }
    }

    /// Whether this is `cargo:token`, which has the tokens of the environment and of files.
    pub(crate) fn is_cargo_token(&self) -> bool {
        self.name() == "cargo:token"
    }

    /// Whether this provider is built into cargo, so that no other program can run it.
    pub(crate) fn is_built_in(&self) -> bool {
        self.name().starts_with("cargo:") && self.name() != "cargo:token-from-stdout"
    }
}

/// The words of a text, separated by white space.
fn split_words(rt: &HostRuntime, text: &str) -> Result<Vec<String>, AllocError> {
    let mut words = Vec::new(rt.alloc());
    for word in text.split_whitespace() {
        words.push(String::from_str(rt.alloc(), word)?)?;
    }
    Ok(words)
}

/// The words of a value: a string is split at white space, and each element of an array is a word.
fn words_of(rt: &HostRuntime, value: &Value) -> Result<Vec<String>, AllocError> {
    if let Some(text) = value.as_str() {
        return split_words(rt, text);
    }
    let mut words = Vec::new(rt.alloc());
    if let Some(elements) = value.as_array() {
        for element in elements {
            if let Some(word) = element.as_str() {
                words.push(String::from_str(rt.alloc(), word)?)?;
            }
        }
    }
    Ok(words)
}

/// Whether a program is a path, and not a name to find on `PATH`.
fn is_path(program: &str) -> bool {
    program.contains('/')
}

/// A provider with these words. A relative path of its program is joined to `base`.
fn command_of(
    rt: &HostRuntime,
    base: &str,
    mut words: Vec<String>,
) -> CargoResult<ProviderCommand> {
    if let Some(program) = words.first_mut()
        && is_path(program.as_str())
    {
        *program = join(rt.alloc(), base, program.as_str())?;
    }
    Ok(ProviderCommand { words })
}

/// The folder for relative paths in a configuration file: the parent of the file's folder.
fn base_of(file: &SettingsFile) -> &str {
    folder(folder(file.path.as_str()))
}

/// The provider of an alias, by the first file that defines it.
fn alias_in(
    rt: &HostRuntime,
    files: &[SettingsFile],
    name: &str,
) -> CargoResult<Option<ProviderCommand>> {
    for file in files {
        if let Some(value) = value_at(&file.table, &["credential-alias", name]) {
            let words = words_of(rt, value)?;
            return Ok(Some(command_of(rt, base_of(file), words)?));
        }
    }
    Ok(None)
}

/// The provider with these words. A single word may be an alias that one of the files defines.
fn provider_of(
    rt: &HostRuntime,
    files: &[SettingsFile],
    base: &str,
    words: Vec<String>,
) -> CargoResult<ProviderCommand> {
    if let [word] = words.as_slice()
        && let Some(provider) = alias_in(rt, files, word.as_str())?
    {
        return Ok(provider);
    }
    command_of(rt, base, words)
}

/// The provider of a value in a file; `aliases` are the files that may define aliases.
pub(crate) fn provider_in(
    rt: &HostRuntime,
    aliases: &[SettingsFile],
    file: &SettingsFile,
    value: &Value,
) -> CargoResult<ProviderCommand> {
    provider_of(rt, aliases, base_of(file), words_of(rt, value)?)
}

/// The provider in a variable of the environment. A relative path is relative to the current folder, `.`.
pub(crate) fn provider_of_text(
    rt: &HostRuntime,
    aliases: &[SettingsFile],
    text: &str,
) -> CargoResult<ProviderCommand> {
    provider_of(rt, aliases, ".", split_words(rt, text)?)
}

/// Adds the global providers of a file, in their order there.
pub(crate) fn add_global_providers(
    rt: &HostRuntime,
    aliases: &[SettingsFile],
    file: &SettingsFile,
    providers: &mut Vec<ProviderCommand>,
) -> CargoResult<()> {
    let value = value_at(&file.table, &["registry", "global-credential-providers"]);
    let Some(elements) = value.and_then(Value::as_array) else {
        return Ok(());
    };
    for element in elements {
        if let Some(text) = element.as_str() {
            let words = split_words(rt, text)?;
            providers.push(provider_of(rt, aliases, base_of(file), words)?)?;
        }
    }
    Ok(())
}
