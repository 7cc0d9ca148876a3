//! Theorems about every plan of new versions.
ghost use Rattle.edit_set_version.specs.Admitted.{DependentsAdmit};

/// After a plan that succeeds, each string requirement of a path dependency on a bumped crate admits the
/// crate's next version, where that has no pre-release, or where the requirement has comparators and all of
/// them have three numbers.
pub fn dependents_admit()
    ensures { DependentsAdmit }
{}
