//! Which versions of curl can fetch index entries.
ghost use Rattle.std.specs.Prelude.{◌≡◌, ◌↔◌, ℕ, IfNone, IfSome, IsTrue};
ghost use Rattle.edit_answers.specs.CurlVersion.{HasVariables, IsNewEnough, IsCurlVersion};

/// Whether a version of curl has all the options and variables that the transfers use.
fn has_variables(major: u32, minor: u32) -> bool
    ensures { IsTrue result ↔ HasVariables major minor }
{
    major > 7 || (major == 7 && minor >= 75)
}

/// Parses the output of `curl --version`: `curl MAJOR.MINOR.`, and anything after it.
fn version_in(text: &str) -> Option<(u32, u32)>
    ensures some { IfSome result (λ v. IsCurlVersion text.now v.0 v.1) }
    ensures none { IfNone result ((major minor : ℕ) → IsCurlVersion text.now major minor → ⊥) }
{
    let Some((name, rest)) = text.split_once(' ') else {
        return None;
    };
    if name != "curl" {
        return None;
    }
    let Some((major, rest)) = rest.split_once('.') else {
        return None;
    };
    let Some((minor, _)) = rest.split_once('.') else {
        return None;
    };
    let Ok(major) = major.parse::<u32>() else {
        return None;
    };
    let Ok(minor) = minor.parse::<u32>() else {
        return None;
    };
    Some((major, minor))
}

/// Whether a text is the output of `curl --version` for version 7.75 or later, which has all the options and
/// variables that the transfers use.
pub fn is_new_enough(text: &str) -> bool
    ensures { IsTrue result ↔ IsNewEnough text.now }
{
    match version_in(text) {
        Some((major, minor)) => has_variables(major, minor),
        None => false,
    }
}
