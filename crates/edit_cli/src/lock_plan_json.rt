//! The plan of an upgrade as JSON, for the steps that bring the lock file up to it.

use edit_base::CargoResult;
use edit_policy::CratePolicy;
use edit_program::LockPlan;
use edit_sources::PublishedBefore;
use edit_version::CrateSpec;
use jiff::Timestamp;
use serde_json::{Map, Value};
use std::alloc::{AllocError, Global};

/// The members of a JSON object.
type Members = Map<String, Value>;

/// Adds a member.
fn put(alloc: Global, members: &mut Members, key: &str, value: Value) -> Result<(), AllocError> {
    members.insert(String::from_str(alloc, key)?, value)?;
    Ok(())
}

/// Texts as an array.
fn text_values(alloc: Global, texts: &[String]) -> Result<Value, AllocError> {
    let mut values = Vec::new(alloc);
    for text in texts {
        values.push(Value::try_from_str(alloc, text.as_str())?)?;
    }
    Ok(Value::Array(values))
}

/// The crates whose versions are bounded, with the version that each requirement was raised to.
fn chosen_values(alloc: Global, planned: &LockPlan) -> Result<Value, AllocError> {
    let mut values = Vec::new(alloc);
    for chosen in planned.chosen_versions(alloc)? {
        let mut members = Map::new(alloc);
        put(
            alloc,
            &mut members,
            "name",
            Value::try_from_str(alloc, chosen.name)?,
        )?;
        put(
            alloc,
            &mut members,
            "version",
            Value::try_from_str(alloc, chosen.version)?,
        )?;
        values.push(Value::Object(members))?;
    }
    Ok(Value::Array(values))
}

/// The names of the `--package` arguments that have a requirement.
fn explicit_values(alloc: Global, arguments: &[String]) -> CargoResult<Value> {
    let mut values = Vec::new(alloc);
    for argument in arguments {
        let spec = CrateSpec::resolve(alloc, argument.as_str())?;
        if spec.version_req.is_some() {
            values.push(Value::try_from_str(alloc, spec.name.as_str())?)?;
        }
    }
    Ok(Value::Array(values))
}

/// The crates that the policy holds, each with its requirement.
fn hold_values(alloc: Global, crates: &[CratePolicy]) -> Result<Value, AllocError> {
    let mut values = Vec::new(alloc);
    for policy in crates {
        if let Some(hold) = &policy.hold {
            let mut members = Map::new(alloc);
            put(
                alloc,
                &mut members,
                "hold",
                Value::try_from_str(alloc, hold.text.as_str())?,
            )?;
            put(
                alloc,
                &mut members,
                "name",
                Value::try_from_str(alloc, policy.name.as_str())?,
            )?;
            values.push(Value::Object(members))?;
        }
    }
    Ok(Value::Array(values))
}

/// A time in RFC 3339, or `null` if there is no bound. A time that RFC 3339 cannot represent becomes the
/// first or the last one that it can.
fn time_value(alloc: Global, bound: Option<PublishedBefore>) -> Result<Value, AllocError> {
    let Some(bound) = bound else {
        return Ok(Value::Null);
    };
    let time = match Timestamp::from_nanosecond(bound.nanosecond) {
        Ok(time) => time,
        Err(_) if bound.nanosecond < 0 => Timestamp::MIN,
        Err(_) => Timestamp::MAX,
    };
    let text = format!(in alloc; "{time}")?;
    Value::try_from_str(alloc, text.as_str())
}

/// `true`, `false`, or `null` where nothing is said.
fn flag_value(flag: Option<bool>) -> Value {
    match flag {
        Some(flag) => Value::Bool(flag),
        None => Value::Null,
    }
}

/// A plan as one line of JSON, its members in the order of their keys.
pub(crate) fn lock_plan_text(alloc: Global, planned: &LockPlan) -> CargoResult<String> {
    let options = &planned.options;
    let mut members = Map::new(alloc);
    put(
        alloc,
        &mut members,
        "chosen",
        chosen_values(alloc, planned)?,
    )?;
    put(
        alloc,
        &mut members,
        "compatible",
        Value::Bool(options.compatible),
    )?;
    put(
        alloc,
        &mut members,
        "explicit",
        explicit_values(alloc, &options.package)?,
    )?;
    put(
        alloc,
        &mut members,
        "git_crates",
        text_values(alloc, &planned.plan.git_crates)?,
    )?;
    put(
        alloc,
        &mut members,
        "holds",
        hold_values(alloc, &planned.crates)?,
    )?;
    put(
        alloc,
        &mut members,
        "modified",
        text_values(alloc, &planned.plan.modified)?,
    )?;
    put(
        alloc,
        &mut members,
        "packages",
        text_values(alloc, &options.package)?,
    )?;
    put(
        alloc,
        &mut members,
        "published_before",
        time_value(alloc, planned.published_before)?,
    )?;
    put(
        alloc,
        &mut members,
        "recursive",
        flag_value(options.recursive),
    )?;
    let text = Value::Object(members).to_string(alloc)?;
    Ok(text)
}
