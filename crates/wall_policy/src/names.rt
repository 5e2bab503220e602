//! Different names, numbered in the order in which they came.
ghost use Rattle.std.specs.Prelude.{◌≡◌, ◌<◌, ◌++◌, ◌∷◌, [], not, length, IfOk};
ghost use Rattle.std.specs.Prelude.{OnErr, IfSome, slice_get, Some, take};
ghost use Rattle.std.specs.Prelude.{if◌then◌else◌, IsTrue, false};
ghost use Rattle.wall_policy.specs.Names.{place_of, is_in, comes_twice};

use crate::checks::NAME_LIMIT;
use indexmap::IndexSet;
use std::alloc::{AllocError, Global};
use std::marker::Model;

// So many hints a table has, or none.
const HINTS: usize = 1024;

/// Different names, seen as the list of them.
pub(crate) struct NameTable {
    names: IndexSet<String>,
    // For each slot the number of a name that may stand there: who asks compares it.
    hints: Vec<u16>,
}

// By hand: a derived one is proved anew wherever one is dropped.
impl Drop for NameTable {
    fn drop(self) {
        let NameTable { names, hints } = self;
        drop(names);
        drop(hints);
    }
}

impl Model for NameTable {
    ghost use Rattle.std.specs.Prelude.{List, ℕ, map, string_bytes};

    ghost Value = { List (List ℕ) };

    ghost view = { λ t. map string_bytes t.names.keys };
}

// A slot for a name, by all its bytes: the highest ten bits of a product, since the lowest bits of
// the hash are alike in many names that only count up. It matters to nothing but the time.
fn slot_of(name: &[u8]) -> usize {
    let mut hash: u32 = 0;
    for byte in name {
        hash = hash.wrapping_mul(31).wrapping_add(u32::from(*byte));
    }
    (hash.wrapping_mul(0x9E37_79B1) >> 22) as usize
}

// The hints for these names, or none where no memory is left for them.
fn hints_for(alloc: Global, names: &IndexSet<String>) -> Vec<u16> {
    let mut hints = Vec::new(alloc);
    if hints.resize(HINTS, 0).is_err() {
        return hints;
    }
    for (number, name) in names.iter().enumerate() {
        if let Some(hint) = hints.get_mut(slot_of(name.as_bytes())) {
            *hint = number.min(u16::MAX as usize) as u16;
        }
    }
    hints
}

// A copy of these hints, or none where no memory is left for them.
fn copy_of(alloc: Global, hints: &[u16]) -> Vec<u16> {
    match Vec::from_slice(alloc, hints) {
        Ok(copy) => copy,
        Err(_) => Vec::new(alloc),
    }
}

// Whether these are the same bytes. Names are short, so one after the other.
#[tactic(auto, using(std::proofs::lemmas::List::ext_get_or))]
fn are_same(left: &[u8], right: &[u8]) -> bool
    ensures { IsTrue result → left.now ≡ right.now }
{
    if left.len() != right.len() {
        return false;
    }
    for at in 0..left.len() {
        if left[at] != right[at] {
            return false;
        }
    }
    true
}

impl NameTable {
    pub(crate) fn new(alloc: Global) -> NameTable
        ensures { result ≡ [] }
    {
        NameTable {
            names: IndexSet::new(alloc),
            hints: Vec::new(alloc),
        }
    }

    /// How many names there are.
    pub(crate) fn len(&self) -> usize
        ensures number { result ≡ length self.now }
        ensures distinct { comes_twice self.now ≡ false }
    {
        self.names.len()
    }

    /// The number of a name.
    pub(crate) fn number_of(&self, name: &str) -> Option<usize>
        ensures number { result ≡ place_of name.now self.now }
        ensures within { IfSome result (λ number. number < length self.now) }
    {
        self.names.get_index_of(name)
    }

    // The number of the name that has these bytes, by the index.
    fn indexed(&self, name: &[u8]) -> Option<usize>
        ensures number { result ≡ place_of name.now self.now }
        ensures within { IfSome result (λ number. number < length self.now) }
    {
        let names = &self.names;
        match std::str::from_utf8(name) {
            Ok(name) => names.get_index_of(name),
            Err(_) => None,
        }
    }

    // The number of the name that has these bytes, if that is what stands in its slot.
    fn hinted(&self, name: &[u8]) -> Option<usize>
        ensures place { IfSome result (λ number. place_of name.now self.now ≡ Some number) }
        ensures within { IfSome result (λ number. number < length self.now) }
    {
        if self.hints.is_empty() || name.len() > NAME_LIMIT {
            return None;
        }
        let hint = usize::from(*self.hints.get(slot_of(name))?);
        if hint >= self.len() {
            return None;
        }
        if are_same(self.name_at(hint).as_bytes(), name) {
            Some(hint)
        } else {
            None
        }
    }

    /// The number of the name that has these bytes.
    pub(crate) fn number_of_bytes(&self, name: &[u8]) -> Option<usize>
        ensures number { result ≡ place_of name.now self.now }
        ensures within { IfSome result (λ number. number < length self.now) }
    {
        match self.hinted(name) {
            Some(number) => Some(number),
            None => self.indexed(name),
        }
    }

    /// Whether the name is there.
    pub(crate) fn has(&self, name: &str) -> bool
        ensures { result ≡ is_in self.now name.now }
    {
        self.names.contains(name)
    }

    /// The name of a number.
    pub(crate) fn name_at(&self, number: usize) -> &str
        requires { number < length self.now }
        ensures { slice_get self.now number ≡ Some result.now }
    {
        match self.names.get_index(number) {
            Some(name) => name.as_str(),
            None => unreachable!(),
        }
    }

    /// A table of the same names, with the same numbers, and without hints.
    pub(crate) fn copy(&self, alloc: Global) -> Result<NameTable, AllocError>
        ensures { IfOk result (λ copy. copy ≡ self.now) }
    {
        let names = self.names.clone()?;
        Ok(NameTable {
            names,
            hints: Vec::new(alloc),
        })
    }

    /// The table with hints for who asks by bytes.
    pub(crate) fn with_hints(self, alloc: Global) -> NameTable
        ensures { result ≡ self }
    {
        let NameTable { names, hints: _ } = self;
        let hints = hints_for(alloc, &names);
        NameTable { names, hints }
    }

    /// The table with the hints of one that it is a copy of.
    pub(crate) fn with_hints_of(self, alloc: Global, first: &NameTable) -> NameTable
        ensures { result ≡ self }
    {
        let NameTable { names, hints: _ } = self;
        let hints = copy_of(alloc, &first.hints);
        NameTable { names, hints }
    }

    /// Takes all but the first names away. (A hint of one that went leads nowhere.)
    pub(crate) fn truncate(&mut self, number: usize)
        ensures { self.new ≡ take number self.old }
    {
        self.names.truncate(number);
    }

    /// Adds a copy of a name, unless it is there.
    pub(crate) fn add(&mut self, alloc: Global, name: &str) -> Result<bool, AllocError>
        ensures is_new { IfOk result (λ added. added ≡ not (is_in self.old name.now)) }
        ensures added { IfOk result
            (λ added. self.new ≡ (if added then self.old ++ name.now ∷ [] else self.old)) }
        ensures err { OnErr result (self.new ≡ self.old) }
    {
        let name = String::from_str(alloc, name)?;
        let (_, is_new) = self.names.insert_full(name)?;
        Ok(is_new)
    }
}

/// The names of a record or a policy, each kind in its order.
#[derive(Drop)]
pub(crate) struct Tables {
    pub(crate) class_names: NameTable,
    pub(crate) dataset_names: NameTable,
    pub(crate) process_names: NameTable,
}
