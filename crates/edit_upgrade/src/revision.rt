//! Plans whose rows are revised after the decisions for single entries.
ghost use Rattle.std.specs.Prelude.{◌≡◌, All, IfErr, IfOk, IfSome, IsUtf8, None, OnOk, length, map, option_copied, option_map, string_bytes};
ghost use Rattle.edit_base.specs.Errors.{IsMemory};
ghost use Rattle.edit_sources.specs.Configured.{given};
ghost use Rattle.edit_upgrade.specs.Addresses.{AreAddresses};
ghost use Rattle.edit_upgrade.specs.ConfigLists.{AreIndices, chosen_lists};
ghost use Rattle.edit_upgrade.specs.Found.{row_entry_view};
ghost use Rattle.edit_upgrade.specs.Drafts.{AreGiven};
ghost use Rattle.edit_upgrade.specs.Lists.{HasRowLists};
ghost use Rattle.edit_upgrade.specs.PlannedView.{AreRowEntries};
ghost use Rattle.edit_upgrade.specs.Revisions.{AddsAddresses, AreFirstOutputs, AreRowsOf, AreUtf8, HasEnoughRows, HasItsAddress, HasRowAddresses, HasRowEach, HasRevisedOutputs, HaveAddresses, IsAddressOf, IsAddressText, IsManifest, IsResolved};

use crate::address_caches::{AddressCaches, keep_addresses, take_addresses};
use crate::addresses::Addresses;
use crate::config_lists::{ConfigLists, list_index};
use crate::draft::{outputs_of, push_all};
use crate::entries_with_rows::{Entry, Source, with_rows};
use crate::lists::{git_crates, has_incompatible, has_pinned, modified_names};
use crate::plan::document_at;
use crate::upgrade::{Look, UpgradePlan, Warning};
use crate::writes::edited_text;
use edit_base::CargoResult;
use edit_document::Document;
use edit_manifest::Manifest;
use edit_manifest::entries::entries;
use edit_metadata::Input;
use edit_report::{Output, Row};
use edit_sources::Config;
use std::alloc::Global;

/// The entries of a manifest that get a row.
fn row_entries(alloc: Global, document: &Document) -> CargoResult<Vec<Entry>>
    ensures entries { IfOk result (λ es. HasRowEach document.now (map row_entry_view es.items)) }
    ensures error { IfErr result IsMemory }
{
    document.lemma_form();
    let found = entries(alloc, "", document)?;
    let entries = with_rows(alloc, found)?;
    Ok(entries)
}

/// The entries of an input that get a row: over its document where one is given, else over the one parsed
/// from its bytes.
fn input_entries(
    alloc: Global,
    input: &Input,
    document: Option<&Document>,
) -> CargoResult<Vec<Entry>>
    requires document { IfSome (option_copied document) (λ d. d.bytes ≡ input.now.bytes.items) }
    requires manifest { IsManifest input.now.bytes.items }
    requires utf8 { option_copied document ≡ None → IsUtf8 input.now.bytes.items }
    ensures entries { IfOk result (λ es. AreRowEntries input.now.bytes.items (map row_entry_view es.items)) }
    ensures error { IfErr result IsMemory }
{
    match document {
        Some(document) => {
            let entries = row_entries(alloc, document)?;
            Ok(entries)
        }
        None => {
            let manifest = Manifest::read_bytes(alloc, &input.bytes)?;
            let entries = row_entries(alloc, &manifest.document)?;
            Ok(entries)
        }
    }
}

/// The address of a registry, by its name, or of the default one.
fn registry_address(
    alloc: Global,
    registry: Option<&str>,
    addresses: &mut Addresses<'_>,
) -> CargoResult<String>
    requires addresses { AreAddresses addresses.old.configs.now addresses.old }
    requires resolved { IsResolved addresses.old.configs.now (given registry) }
    ensures addresses { OnOk result (AreAddresses addresses.old.configs.now addresses.new) }
    ensures address { IfOk result (λ s. IsAddressText addresses.old.configs.now (given registry.entry)
        (string_bytes s)) }
    ensures error { IfErr result IsMemory }
{
    addresses.ensure_resolved(alloc, registry)?;
    let Some(url) = addresses.url(registry) else {
        unreachable!()
    };
    let address = String::from_str(alloc, url.as_str())?;
    Ok(address)
}

/// The address of an entry's registry; `None` for a git or path dependency.
fn address_of(
    alloc: Global,
    entry: &Entry,
    addresses: &mut Addresses<'_>,
) -> CargoResult<Option<String>>
    requires addresses { AreAddresses addresses.old.configs.now addresses.old }
    requires resolved { HasItsAddress addresses.old.configs.now (row_entry_view entry.now) }
    ensures addresses { OnOk result (AreAddresses addresses.old.configs.now addresses.new) }
    ensures address { IfOk result (λ o. IsAddressOf addresses.old.configs.now (row_entry_view entry.now)
        (option_map string_bytes o)) }
    ensures error { IfErr result IsMemory }
{
    match &entry.source {
        Source::Registry(Some(named)) => {
            let address = registry_address(alloc, Some(named.as_str()), addresses)?;
            Ok(Some(address))
        }
        Source::Registry(None) => {
            let address = registry_address(alloc, None, addresses)?;
            Ok(Some(address))
        }
        Source::Git | Source::Path => Ok(None),
    }
}

/// Appends the address of the registry of each entry.
fn push_addresses(
    alloc: Global,
    entries: &[Entry],
    addresses: &mut Addresses<'_>,
    found: &mut Vec<Option<String>>,
) -> CargoResult<()>
    requires addresses { AreAddresses addresses.old.configs.now addresses.old }
    requires resolved { All (HasItsAddress addresses.old.configs.now) (map row_entry_view entries.now) }
    ensures addresses { OnOk result (AreAddresses addresses.old.configs.now addresses.new) }
    ensures found { OnOk result (AddsAddresses addresses.old.configs.now (map row_entry_view entries.now)
        (map (option_map string_bytes) found.old.items) (map (option_map string_bytes) found.new.items)) }
    ensures error { IfErr result IsMemory }
{
    'entries: for entry in entries {
        let address = address_of(alloc, entry, addresses)?;
        found.push(address)?;
    }
    Ok(())
}

/// For each row of the plan of these inputs the address of its entry's registry, under the configurations
/// that were planned with; `None` for a git or path dependency. `which` has for each input the index of its
/// list of configurations; `documents` is empty or has the document of each input.
pub fn row_addresses(
    alloc: Global,
    inputs: &[Input],
    documents: &[Document],
    lists: &[Vec<Config>],
    which: &[usize],
) -> CargoResult<Vec<Option<String>>>
    requires configurations { length which.now ≡ length inputs.now }
    requires lists { AreIndices lists.now which.now }
    requires documents { AreGiven inputs.now documents.now }
    requires utf8 { AreUtf8 inputs.now documents.now }
    requires resolved { HaveAddresses inputs.now (chosen_lists lists.now which.now) }
    ensures addresses { IfOk result (λ v. HasRowAddresses inputs.now (chosen_lists lists.now which.now)
        (map (option_map string_bytes) v.items)) }
    ensures error { IfErr result IsMemory }
{
    let configs = ConfigLists {
        lists,
        which: Some(which),
    };
    let mut caches = AddressCaches::new(alloc);
    let mut found = Vec::new(alloc);
    'inputs: for (i, input) in inputs.iter().enumerate() {
        let document = document_at(documents, i);
        let entries = input_entries(alloc, input, document)?;
        let list = list_index(configs, i);
        let mut addresses = take_addresses(alloc, configs, list, &mut caches);
        push_addresses(alloc, &entries, &mut addresses, &mut found)?;
        keep_addresses(configs, list, addresses, &mut caches)?;
    }
    Ok(found)
}

/// The output of a manifest with these rows, the first of which belong to its entries, and how many do.
fn document_outputs(
    alloc: Global,
    input: &Input,
    document: &Document,
    rows: &[Row],
) -> CargoResult<(Vec<Output>, usize)>
    requires document { document.now.bytes ≡ input.now.bytes.items }
    requires rows { HasEnoughRows input.now.bytes.items rows.now }
    ensures outputs { IfOk result (λ r. AreFirstOutputs input.now rows.now r.0.items r.1) }
    ensures error { IfErr result IsMemory }
{
    let entries = row_entries(alloc, document)?;
    let count = entries.len().min(rows.len());
    let text = edited_text(alloc, document, &entries, &rows[..count])?;
    let outputs = outputs_of(alloc, input.path.as_str(), text)?;
    Ok((outputs, count))
}

/// The output of an input with these rows, the first of which belong to its entries, and how many do.
fn input_outputs(
    alloc: Global,
    input: &Input,
    document: Option<&Document>,
    rows: &[Row],
) -> CargoResult<(Vec<Output>, usize)>
    requires document { IfSome (option_copied document) (λ d. d.bytes ≡ input.now.bytes.items) }
    requires utf8 { option_copied document ≡ None → IsUtf8 input.now.bytes.items }
    requires rows { HasEnoughRows input.now.bytes.items rows.now }
    ensures outputs { IfOk result (λ r. AreFirstOutputs input.now rows.now r.0.items r.1) }
    ensures error { IfErr result IsMemory }
{
    match document {
        Some(document) => document_outputs(alloc, input, document, rows),
        None => {
            let manifest = Manifest::read_bytes(alloc, &input.bytes)?;
            document_outputs(alloc, input, &manifest.document, rows)
        }
    }
}

/// The outputs of inputs whose entries have these rows.
fn revised_outputs(
    alloc: Global,
    inputs: &[Input],
    documents: &[Document],
    rows: &[Row],
) -> CargoResult<Vec<Output>>
    requires documents { AreGiven inputs.now documents.now }
    requires utf8 { AreUtf8 inputs.now documents.now }
    requires rows { AreRowsOf inputs.now rows.now }
    ensures outputs { IfOk result (λ v. HasRevisedOutputs inputs.now rows.now v.items) }
    ensures error { IfErr result IsMemory }
{
    let mut all = Vec::new(alloc);
    let mut rest = rows;
    'inputs: for (i, input) in inputs.iter().enumerate() {
        let document = document_at(documents, i);
        let found = input_outputs(alloc, input, document, rest)?;
        push_all(&mut all, found.0)?;
        rest = &rest[found.1..];
    }
    Ok(all)
}

/// The plan of inputs whose entries have these rows, in order: its outputs and its lists of names are those
/// of the rows. `documents` is empty or has the document of each input.
pub fn revised_plan(
    alloc: Global,
    inputs: &[Input],
    documents: &[Document],
    rows: Vec<Row>,
    looks: Vec<Look>,
    warnings: Vec<Warning>,
    missing: Vec<String>,
) -> CargoResult<UpgradePlan>
    requires documents { AreGiven inputs.now documents.now }
    requires utf8 { AreUtf8 inputs.now documents.now }
    requires rows { AreRowsOf inputs.now rows.items }
    ensures rows { IfOk result (λ p. p.rows ≡ rows) }
    ensures outputs { IfOk result (λ p. HasRevisedOutputs inputs.now rows.items p.outputs.items) }
    ensures lists { IfOk result HasRowLists }
    ensures others { IfOk result (λ p. (p.looks ≡ looks) × (p.warnings ≡ warnings) × (p.missing ≡ missing)) }
    ensures error { IfErr result IsMemory }
{
    let outputs = revised_outputs(alloc, inputs, documents, &rows)?;
    let modified = modified_names(alloc, &rows)?;
    let git_crates = git_crates(alloc, &rows)?;
    let pinned_present = has_pinned(&rows);
    let incompatible_present = has_incompatible(&rows);
    Ok(UpgradePlan {
        outputs,
        rows,
        looks,
        warnings,
        missing,
        modified,
        git_crates,
        pinned_present,
        incompatible_present,
    })
}
