//! Tests of which packages of a lock file are set back. The versions to which they are set back follow by
//! hand from the requirements and SemVer's precedence.
use edit_lock_bounds::{
    Bounds, ChosenVersion, Correction, EligibleVersions, LockChange, Outcome, Package, Requirement,
    corrections_of, lookups_of, read_packages,
};
use std::alloc::{AllocError, Global};
use std::test::Fail;

const SOURCE: &str = "registry+https://registry.example/index";

/// A package in a lock file: a line `NAME VERSION SOURCE`, where `SOURCE` may be absent.
fn push_locked(text: &mut String, line: &str) -> Result<(), AllocError> {
    let mut parts = line.split(' ');
    text.push_str("[[package]]\nname = \"")?;
    text.push_str(parts.next().unwrap_or(""))?;
    text.push_str("\"\nversion = \"")?;
    text.push_str(parts.next().unwrap_or(""))?;
    text.push_str("\"\n")?;
    if let Some(source) = parts.next() {
        text.push_str("source = \"")?;
        text.push_str(source)?;
        text.push_str("\"\n")?;
    }
    Ok(())
}

/// The text of a lock file with these packages.
fn lock_of(alloc: Global, lines: &[&str]) -> Result<String, AllocError> {
    let mut text = String::from_str(alloc, "version = 4\n")?;
    for line in lines {
        push_locked(&mut text, line)?;
    }
    Ok(text)
}

/// Requirements of the registry: lines `NAME REQUIREMENT`, whose parts are joined by `,` without spaces.
fn requirements_of(alloc: Global, lines: &[&str]) -> Result<Vec<Requirement>, AllocError> {
    let mut requirements = Vec::new(alloc);
    for line in lines {
        let (name, req) = line.split_once(' ').unwrap_or((line, "*"));
        requirements.push(Requirement {
            name: String::from_str(alloc, name)?,
            source: Some(String::from_str(alloc, SOURCE)?),
            req: String::from_str(alloc, req)?,
            required_by: String::from_str(alloc, "app")?,
        })?;
    }
    Ok(requirements)
}

/// Eligible versions of crates of the registry: lines `NAME VERSION VERSION ..`.
fn crates_of(alloc: Global, lines: &[&str]) -> Result<Vec<EligibleVersions>, AllocError> {
    let mut crates = Vec::new(alloc);
    for line in lines {
        let mut versions = Vec::new(alloc);
        let mut parts = line.split(' ');
        let name = parts.next().unwrap_or("");
        for version in parts {
            versions.push(String::from_str(alloc, version)?)?;
        }
        crates.push(EligibleVersions {
            name: String::from_str(alloc, name)?,
            source: String::from_str(alloc, SOURCE)?,
            versions,
        })?;
    }
    Ok(crates)
}

/// Corrections, one a line.
fn format_corrections(alloc: Global, corrections: &[Correction]) -> Result<String, AllocError> {
    let mut text = String::new(alloc);
    for correction in corrections {
        text.push_str(correction.package.name.as_str())?;
        text.push_str(" ")?;
        text.push_str(correction.package.version.as_str())?;
        match &correction.outcome {
            Outcome::SetBack(version) => {
                text.push_str(" to ")?;
                text.push_str(version.as_str())?;
            }
            Outcome::NoneFits => text.push_str(" fits nothing")?,
            Outcome::Unknown => text.push_str(" is unknown")?,
        }
        text.push_str("\n")?;
    }
    Ok(text)
}

const BEFORE: [&str; 3] = [
    "app 0.1.0",
    "leaf 0.1.3 registry+https://registry.example/index",
    "old 1.0.0 registry+https://registry.example/index",
];

const AFTER: [&str; 11] = [
    "app 0.2.0",
    "dark 1.0.0 registry+https://registry.example/index",
    "deep 1.5.0 registry+https://registry.example/index",
    "dual 1.9.0 registry+https://registry.example/index",
    "dual 2.3.0 registry+https://registry.example/index",
    "gitted 1.0.0 git+https://git.example/gitted#0123456",
    "leaf 0.1.11 registry+https://registry.example/index",
    "old 1.0.0 registry+https://registry.example/index",
    "pinned 3.0.0 registry+https://registry.example/index",
    "raised 1.2.0 registry+https://registry.example/index",
    "young 1.0.0 registry+https://registry.example/index",
];

const REQUIREMENTS: [&str; 10] = [
    "dark ^1",
    "deep ^1.2",
    "deep >=1.0,<2",
    "dual ^1",
    "dual ^2",
    "leaf 0.1.3",
    "old ^1",
    "pinned ^3",
    "raised 1.1",
    "young 1.0",
];

// Of `leaf` 0.1.10 comes after 0.1.8, and 0.2.0 is not admitted. Of `deep` 1.4.0 is the greatest below 1.5.0.
const ELIGIBLE: [&str; 7] = [
    "deep 1.1.0 1.4.0 1.3.9 2.0.0",
    "dual 1.8.0 2.2.0 1.7.0",
    "leaf 0.1.3 0.1.8 0.1.10 0.1.9 0.2.0",
    "old 0.9.0",
    "pinned 2.9.0 3.0.0-rc.1",
    "raised 1.0.0 1.1.0 1.2.0 1.3.0",
    "young 0.9.0",
];

/// The packages of a lock file with these lines.
fn packages_of(alloc: Global, lines: &[&str]) -> Result<Vec<Package>, Fail> {
    let text = lock_of(alloc, lines)?;
    Ok(read_packages(alloc, text.as_bytes())?)
}

/// The crates that are never set back.
fn exempt_crates(alloc: Global) -> Result<Vec<String>, AllocError> {
    let mut names = Vec::new(alloc);
    names.push(String::from_str(alloc, "pinned")?)?;
    Ok(names)
}

/// The versions that the plan chose.
fn chosen_versions(alloc: Global) -> Result<Vec<ChosenVersion>, AllocError> {
    let mut chosen = Vec::new(alloc);
    chosen.push(ChosenVersion {
        name: String::from_str(alloc, "raised")?,
        version: String::from_str(alloc, "1.1.0")?,
    })?;
    Ok(chosen)
}

/// The corrections of a change, one a line, over the requirements and versions above.
fn corrections_text(alloc: Global, change: &LockChange<'_>) -> Result<String, Fail> {
    let requirements = requirements_of(alloc, &REQUIREMENTS)?;
    let crates = crates_of(alloc, &ELIGIBLE)?;
    let chosen = chosen_versions(alloc)?;
    let bounds = Bounds {
        requirements: &requirements,
        crates: &crates,
        chosen: &chosen,
    };
    let corrections = corrections_of(alloc, change, &bounds)?;
    Ok(format_corrections(alloc, &corrections)?)
}

#[test]
fn sets_back_what_is_not_eligible(rt: HostRuntime) -> Result<(), Fail> {
    let alloc = rt.alloc();
    let before = packages_of(alloc, &BEFORE)?;
    let after = packages_of(alloc, &AFTER)?;
    let exempt = exempt_crates(alloc)?;
    let change = LockChange {
        before: &before,
        after: &after,
        exempt: &exempt,
    };
    let text = corrections_text(alloc, &change)?;
    assert_eq!(rt;
        text.as_str(),
        "\
dark 1.0.0 is unknown
deep 1.5.0 to 1.4.0
dual 1.9.0 to 1.8.0
dual 2.3.0 to 2.2.0
leaf 0.1.11 to 0.1.10
raised 1.2.0 to 1.1.0
young 1.0.0 fits nothing
"
    );
    Ok(())
}

#[test]
fn looks_each_changed_crate_up_once(rt: HostRuntime) -> Result<(), Fail> {
    let alloc = rt.alloc();
    let before = packages_of(alloc, &BEFORE)?;
    let after = packages_of(alloc, &AFTER)?;
    let exempt = exempt_crates(alloc)?;
    let change = LockChange {
        before: &before,
        after: &after,
        exempt: &exempt,
    };
    let lookups = lookups_of(alloc, &change)?;
    let mut names = String::new(alloc);
    for lookup in &lookups {
        names.push_str(lookup.name.as_str())?;
        names.push_str(" ")?;
        assert_eq!(rt; lookup.source.as_str(), SOURCE);
    }
    assert_eq!(rt; names.as_str(), "dark deep dual leaf raised young ");
    Ok(())
}
