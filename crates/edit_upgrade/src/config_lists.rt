//! The configurations of inputs: one list for each input, or lists shared among inputs.
ghost use Rattle.std.specs.Prelude.{◌≡◌, ◌<◌, length, slice_get, slice_index};
ghost use Rattle.edit_upgrade.specs.ConfigLists.{HasLists, lists_in};

use edit_sources::Config;

/// The configurations of inputs, as lists that inputs may share.
#[derive(Clone, Copy)]
pub(crate) struct ConfigLists<'a> {
    pub(crate) lists: &'a [Vec<Config>],
    /// For each input the index of its list; where `None`, each input has the list at its own index.
    pub(crate) which: Option<&'a [usize]>,
}

/// The index that `which` has for input `i`.
fn shared_index(which: &[usize], i: usize) -> usize
    requires { i < length which.now }
    ensures { result ≡ slice_index which.now i }
{
    which[i]
}

/// The index of the list of input `i`.
pub(crate) fn list_index(configs: ConfigLists<'_>, i: usize) -> usize
    requires lists { HasLists configs }
    requires within { i < length (lists_in configs) }
    ensures within { result < length configs.entry.lists.now }
    ensures list { slice_get configs.entry.lists.now result ≡ slice_get (lists_in configs.entry) i }
{
    match configs.which {
        Some(which) => shared_index(which, i),
        None => i,
    }
}
