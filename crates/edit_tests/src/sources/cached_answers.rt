//! Cached answers and rankings.
use super::calls::calls;
use super::index_texts::files_of;
use crate::assertion_helpers::unwrap_ok;
use edit_cache::IndexCache;
use edit_sources::{FileIndex, Index, LocalIndex};
use edit_store::FaultStore;
use std::alloc::Global;
use std::process::Abort;

/// The lines of two crates.
const TWO: &[u8] =
    b"{\"name\":\"a\",\"vers\":\"1.0.0\"}\r\n \t\n{\"name\":\"b\",\"vers\":\"2.0.0\"}\n\
{\"name\":\"a\",\"vers\":\"1.1.0\",\"yanked\":true,\"rust_version\":null}\n";

/// A call over these lines.
const OVER_TWO: &str = "both lines, in order|krate|a||a 1.0.0.a 1.1.0!";

#[test]
fn finds_in_one_file(rt: HostRuntime) {
    let index = unwrap_ok(&rt, FileIndex::read(rt.alloc(), TWO));
    let mut cache = IndexCache::new(rt.alloc(), index);
    calls(&rt, rt.alloc(), &mut cache, OVER_TWO);
}

/// A path, and lines of which the last is truncated.
const BROKEN: &str = "/idx/1/a|{\"name\":\"a\",\"vers\":\"1.0.0\"}@{\"na";

/// Rows: a name, a call, the crate's name, a version or a requirement, and the expected result.
const OVER_BROKEN: &str = "a line cut short|krate|a||30 Invalid index line 2";

/// A path, and lines that are all valid.
const REPAIRED: &str = "/idx/1/a|{\"name\":\"a\",\"vers\":\"1.0.0\"}@";

/// The calls over them, where the first read fails.
const OVER_REPAIRED: &str = "\
the device fails|has|a||3 Failed to read a file
nothing is kept|shown|a||none
the next look|krate|a||a 1.0.0.";

/// An index in files, over a store whose call number `at` fails.
fn failing_index(rt: &impl Abort, alloc: Global, files: &str, at: u64) -> LocalIndex<FaultStore> {
    LocalIndex::new(FaultStore::new(files_of(rt, alloc, files), at, 0))
}

/// Replaces the index of a cache, and returns how often the old one failed.
fn replace<I: Index + Drop>(cache: &mut IndexCache<I>, index: I) -> u64 {
    cache.replace_index(index).faults()
}

/// Makes calls over an index with these files, over a store one of whose calls fails. A fault is counted
/// where that is the first one.
fn over(
    rt: &impl Abort,
    alloc: Global,
    cache: &mut IndexCache<LocalIndex<FaultStore>>,
    index: &(&str, u64, &str),
) {
    let (files, at, rows) = *index;
    replace(cache, failing_index(rt, alloc, files, at));
    calls(rt, alloc, cache, rows);
    let failed = replace(cache, failing_index(rt, alloc, "", 9));
    assert!(rt; (failed == 0) != (at == 0), "another count of faults");
}

/// Makes calls over one index after the other, each with its files and the number of the store's call that
/// fails.
fn over_each(rt: &impl Abort, alloc: Global, indexes: &[(&str, u64, &str)]) {
    let mut cache = IndexCache::new(alloc, failing_index(rt, alloc, "", 9));
    'indexes: for index in indexes {
        over(rt, alloc, &mut cache, index);
    }
}

#[test]
fn errors_are_not_cached(rt: HostRuntime) {
    let indexes = [(BROKEN, 9, OVER_BROKEN), (REPAIRED, 0, OVER_REPAIRED)];
    over_each(&rt, rt.alloc(), &indexes);
}

/// Paths with lines: of one the last is cut short, those of another are read, and one has none.
const HALF_BROKEN: &str = "\
/idx/1/a|{\"name\":\"a\",\"vers\":\"1.0.0\"}@{\"na
/idx/1/b|{\"name\":\"b\",\"vers\":\"2.0.0\"}@
/idx/1/x|";

/// The calls over them.
const OVER_HALF_BROKEN: &str = "\
an answer|ranked|b||2.0.0;
one letter, no line|krate|x||
a line cut short|ranked|a||30 Invalid index line 2
a line cut short for krate|krate|a||30 Invalid index line 2
nothing is kept|shown|a||none
nor ranked|shown ranking|a||none
the other answer|shown|b||b 2.0.0.
the other ranking|shown ranking|b||2.0.0;";

/// The calls where the first read fails, after them.
const AFTER_HALF_BROKEN: &str = "\
the device fails|ranked|a||3 Failed to read a file
nothing is kept|shown|a||none
nor ranked|shown ranking|a||none
no look|krate|b||b 2.0.0.
the other ranking|ranked|b||2.0.0;
the next look|ranked|a||1.0.0;
the other answer|shown|b||b 2.0.0.";

#[test]
fn failed_rankings_are_not_cached(rt: HostRuntime) {
    let first = (HALF_BROKEN, 9, OVER_HALF_BROKEN);
    over_each(&rt, rt.alloc(), &[first, (REPAIRED, 0, AFTER_HALF_BROKEN)]);
}

/// A path, and a line.
const ONE: &str = "/idx/1/b|{\"name\":\"b\",\"vers\":\"2.0.0\"}@";

/// The call whose answer is cached.
const OVER_ONE: &str = "an answer|fetch|b||done";

/// The calls when the index has no line any more.
const OVER_NONE: &str = "\
again|fetch|b||done
the answer stays|shown|b||b 2.0.0.
its version|has version|b|2.0.0|Some(true)
another text|has version|b|2.0|Some(false)
no such name|has version|a|2.0.0|None
forgotten|forget|b||done
asked once more|has|b||false";

#[test]
fn an_answer_stays(rt: HostRuntime) {
    over_each(&rt, rt.alloc(), &[(ONE, 9, OVER_ONE), ("", 9, OVER_NONE)]);
}

/// A path, and lines with equal versions, one that is no version, and a yanked one.
const FIVE: &str = "\
/idx/1/a|{\"name\":\"a\",\"vers\":\"1.0.0+a\"}@\
{\"name\":\"a\",\"vers\":\"1.2.0\",\"rust_version\":\"1.70\"}@\
{\"name\":\"a\",\"vers\":\"1.0.0+b\"}@{\"name\":\"a\",\"vers\":\"bad\"}@\
{\"name\":\"a\",\"vers\":\"1.3.0\",\"yanked\":true}@";

/// The calls over them.
const OVER_FIVE: &str = "\
greatest first, the later one of equals|ranked|a||1.2.0;1.0.0+b;1.0.0+a;
the latest|choice|a||a 1.2.0 -
below the greatest|choice|a|<1.2|a 1.0.0 -
the greatest|choice|a|1|a 1.2.0 -
none|choice|a|2|-";

/// The line of the next index.
const NEXT: &str = "/idx/1/a|{\"name\":\"a\",\"vers\":\"2.0.0\"}";

/// The calls over it.
const OVER_NEXT: &str = "\
again|rank|a||done
the ranking stays|shown ranking|a||1.2.0;1.0.0+b;1.0.0+a;
forgotten|forget|a||done
no ranking|shown ranking|a||none
the next ranking|ranked|a||2.0.0;
no such name|ranked|b||none";

#[test]
fn rankings_are_cached(rt: HostRuntime) {
    over_each(
        &rt,
        rt.alloc(),
        &[(FIVE, 9, OVER_FIVE), (NEXT, 9, OVER_NEXT)],
    );
}

/// Two paths, each with a line.
const BOTH: &str = "\
/idx/1/a|{\"name\":\"a\",\"vers\":\"1.0.0\"}@
/idx/1/b|{\"name\":\"b\",\"vers\":\"2.0.0\"}@";

/// The calls whose answers are cached.
const OVER_BOTH: &str = "\
one crate|fetch|a||done
another|fetch|b||done";

/// The calls when the index has no line any more.
const AFTER_BOTH: &str = "\
the last answer|shown|b||b 2.0.0.
the answer before|shown|a||a 1.0.0.
the last one ranked|ranked|b||2.0.0;
the one before ranked|ranked|a||1.0.0;
the one before forgotten|forget|a||done
it is gone|shown|a||none
the last one stays|shown|b||b 2.0.0.
the last one forgotten|forget|b||done
it is gone too|shown|b||none";

#[test]
fn answers_of_two_crates_stay(rt: HostRuntime) {
    over_each(
        &rt,
        rt.alloc(),
        &[(BOTH, 9, OVER_BOTH), ("", 9, AFTER_BOTH)],
    );
}
