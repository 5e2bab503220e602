//! Entries with and without their form.

use coll_routes::{Numbers, Own, Signature, Stated};
use run_model::Entry;
use std::process::Abort;
use wall_labels::{Label, ProcessId};

fn posted(rt: &impl Abort, sig: Signature, own: Own, given: u32, label: Option<Label>) -> Entry {
    let process = ProcessId::new(3).expect(rt, "a process");
    Entry::Posted {
        process,
        comm: 0,
        stated: Stated {
            sig,
            own,
            given,
            label,
            barred: false,
        },
    }
}

// Whether such a post has its form.
fn expect(
    rt: &impl Abort,
    sig: Signature,
    own: Own,
    given: u32,
    label: Option<Label>,
    has_form: bool,
) {
    let entry = posted(rt, sig, own, given, label);
    assert!(rt; entry.has_form() == has_form);
    drop(entry);
}

fn split() -> Own {
    Own::Split {
        colour: None,
        key: 0,
    }
}

#[test]
fn forms_of_entries(rt: HostRuntime) {
    let counts = Own::Counts(Numbers::from(Vec::new(rt.alloc())));
    expect(&rt, Signature::Split, split(), 0, None, true);
    expect(&rt, Signature::Split, Own::Plain, 0, None, false);
    expect(&rt, Signature::Barrier, counts, 0, None, false);
    expect(
        &rt,
        Signature::Barrier,
        Own::Plain,
        1,
        Some(Label::Public),
        true,
    );
    expect(
        &rt,
        Signature::Barrier,
        Own::Plain,
        0,
        Some(Label::Public),
        false,
    );
    expect(&rt, Signature::Barrier, Own::Plain, 1, None, false);
}
