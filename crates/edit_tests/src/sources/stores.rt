//! Stores in memory, a store whose call fails, and devices of the machine.
use super::steps::steps;
use crate::assertion_helpers::unwrap_alloc;
use edit_store::{FaultStore, HostStore, MemoryStore};

/// Rows: a name, a call, a path, the text to write, and the expected result.
const MEMORY: &str = "\
a file|write|/w/Cargo.toml|a|written
a file below|write|/w/a/lib.rs|b|written
a file again|write|/w/Cargo.toml|cd|written
the root|kind|/||folder
a front|kind|/w||folder
a longer front|kind|/w/a||folder
a file's kind|kind|/w/Cargo.toml||file
a part of a name|kind|/w/Cargo||absent
below a file|kind|/w/Cargo.toml/x||absent
nothing|kind|/w/b||absent
the last text|read|/w/Cargo.toml||cd
a folder has no text|read|/w||none
no fault|faults|||0";

#[test]
fn folders_in_memory(rt: HostRuntime) {
    let mut store = MemoryStore::new(rt.alloc());
    steps(&rt, rt.alloc(), &mut store, MEMORY);
}

/// The files before the calls are counted.
const BEFORE: &str = "\
a file|write|/b|old bytes|written
another file|write|/c|old|written";

/// Call number 1 fails, and its write leaves 4 bytes.
const FAILS: &str = "\
call 0|write|/a|new a|written
call 1|write|/b|new b|3 Failed to write updated Cargo.toml
counted|faults|||1";

/// The files of the wrapped store then.
const BELOW: &str = "\
written|read|/a||new a
cut short|read|/b||new |
as it was|read|/c||old";

/// Nothing fails any more.
const AFTER: &str = "\
written again|write|/b|new b|written
the new text|read|/b||new b
its kind|kind|/b||file
no other fault|faults|||1";

#[test]
fn one_call_fails(rt: HostRuntime) {
    let mut inner = MemoryStore::new(rt.alloc());
    steps(&rt, rt.alloc(), &mut inner, BEFORE);
    let mut store = FaultStore::new(inner, 1, 4);
    steps(&rt, rt.alloc(), &mut store, FAILS);
    steps(&rt, rt.alloc(), &mut store.inner, BELOW);
    steps(&rt, rt.alloc(), &mut store, AFTER);
}

/// Each call, where it is the first one and fails.
const FIRST: &str = "\
a kind|kind|/||3 Failed to look at a path
a read|read|/||3 Failed to read a file";

#[test]
fn the_first_call_fails(rt: HostRuntime) {
    'rows: for row in FIRST.lines() {
        let mut store = FaultStore::new(MemoryStore::new(rt.alloc()), 0, 9);
        steps(&rt, rt.alloc(), &mut store, row);
    }
}

/// A device, which is no file, among the files of the machine, and a folder that is not there.
const DEVICE: &str = "\
no fault yet|faults|||0
a device is no file|kind|/dev/null||absent
a device without a text|read|/dev/null||
a device is written to|write|/dev/null|six|written
still no fault|faults|||0
a device with a text|read|/dev/zero||3 Failed to read a file
a fault|faults|||1
no folder|write|/dev/null/no/file|six|3 Failed to write updated Cargo.toml
a second fault|faults|||2";

#[test]
fn a_device_is_no_file(rt: HostRuntime) {
    let mut store = HostStore::new(unwrap_alloc(&rt, rt.clone()));
    steps(&rt, rt.alloc(), &mut store, DEVICE);
}
