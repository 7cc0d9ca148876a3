//! An index restricted to some versions of crates.
ghost use Rattle.std.specs.Prelude.{◌≡◌, IfOk};
ghost use Rattle.edit_restricted_index.specs.RestrictedIndex.{index_of, test_in, view_of};
ghost use Rattle.edit_restricted_index.specs.VersionTests.{test_of};

use crate::retained_entries::{restrict_shared, restricted_answer};
use crate::version_tests::{Restriction, VersionTests};
use edit_base::errors::CargoResult;
use edit_sources::index::{Index, IndexKrate};
use std::alloc::{AllocError, Global};
use std::rc::Rc;
use url::Url;

/// An index restricted to some versions of crates, or a whole index.
#[derive(Debug, Drop)]
pub struct RestrictedIndex<'a, I> {
    index: I,
    tests: VersionTests<'a>,
}

impl<'a, I: Drop> RestrictedIndex<'a, I> {
    /// Returns an index with only the entries that a restriction leaves: those with the name that is looked
    /// up whose version is one of the packages, where packages are given, and admitted by each hold.
    pub fn new(
        alloc: Global,
        index: I,
        restriction: Restriction<'a>,
    ) -> Result<RestrictedIndex<'a, I>, AllocError>
        ensures index { IfOk result (λ i. index_of i ≡ index) }
        ensures test { IfOk result (λ i. test_in i ≡ test_of restriction.entry) }
    {
        let tests = VersionTests::new(alloc, restriction)?;
        Ok(RestrictedIndex { index, tests })
    }
}

impl<I: Index> Index for RestrictedIndex<'_, I> {
    ghost view = { λ i. view_of I.view i };

    fn look(
        &mut self,
        alloc: Global,
        registry: &Url,
        name: &str,
    ) -> CargoResult<Option<IndexKrate>> {
        let answer = match self.index.look(alloc, registry, name) {
            Ok(answer) => answer,
            Err(error) => return Err(error),
        };
        restricted_answer(alloc, &self.tests, name, answer)
    }

    fn look_shared(
        &mut self,
        alloc: Global,
        registry: &Url,
        name: &str,
    ) -> CargoResult<Option<Rc<IndexKrate>>> {
        let answer = match self.index.look_shared(alloc, registry, name) {
            Ok(answer) => answer,
            Err(error) => return Err(error),
        };
        restrict_shared(alloc, &self.tests, name, answer)
    }

    fn faults(&self) -> u64 {
        self.index.faults()
    }
}
