//! A set of datasets, in a row of bits.
ghost use Rattle.std.specs.Prelude.{◌≡◌, ◌≢◌, ℕ, ◌+◌, ◌*◌, ◌/◌, ◌<◌, ◌≤◌, ◌||◌, ◌&&◌, ◌↔◌, Some};
ghost use Rattle.std.specs.Prelude.{IfSome, IfNone, IsTrue, false};
ghost use Rattle.std.specs.Ordering.{nat_cmp};
ghost use Rattle.std.specs.FinSet as set;
ghost use Rattle.std.specs.Int.{trailing_zeros, w64};
ghost use Rattle.wall_labels.specs.Rows.{HoldsDatasets, IsClearFrom, is_set, is_bit, differs};
ghost use Rattle.wall_labels.specs.Rows.{is_in_one, is_missing};

use super::ids::{DATASET_LIMIT, DatasetId};
use std::marker::Model;

const WORD_BITS: u32 = 64;

const WORDS: usize = (DATASET_LIMIT / WORD_BITS) as usize;

/// A set of datasets: a bit for each number that a dataset can have. No call takes memory.
///
/// A scan or a union looks at no word past the highest one that was ever set, so under a policy of
/// few datasets a set costs no more than its first words.
#[derive(Drop)]
pub struct LabelSet {
    words: [u64; WORDS],
    // No word from this place on has a bit that is set.
    used: usize,
}

impl Model for LabelSet {
    ghost use Rattle.std.specs.Ordering.{nat_cmp};
    ghost use Rattle.std.specs.Coded.{coded_ℕ};
    ghost use Rattle.std.specs.FinSet as set;
    ghost use Rattle.wall_labels.specs.Rows.{set_of_row, IsClearFrom};

    ghost Value = { set.FinSet nat_cmp };

    ghost coded = { set.code coded_ℕ };

    ghost view = { λ s. set_of_row s.words };

    ghost invariant = { λ s. IsClearFrom s.words s.used };
}

impl LabelSet {
    ghost use Rattle.wall_labels.specs.Rows.{IsLowestShared, SharesNone, Meet, IsWithin};

    pub fn empty() -> LabelSet
        ensures { result ≡ set.empty }
    {
        LabelSet {
            words: [0; WORDS],
            used: 0,
        }
    }

    pub fn contains(&self, dataset: DatasetId) -> bool
        ensures value { result ≡ set.contains self.now dataset }
        ensures members { HoldsDatasets self.now }
    {
        let number = dataset.number();
        let word = self.words[(number / WORD_BITS) as usize];
        word >> (number % WORD_BITS) & 1 == 1
    }

    pub fn insert(&mut self, dataset: DatasetId)
        ensures { self.new ≡ set.insert self.old dataset }
    {
        let number = dataset.number();
        let place = (number / WORD_BITS) as usize;
        self.words[place] = self.words[place] | 1 << (number % WORD_BITS);
        self.used = self.used.max(place + 1);
    }

    /// Adds every member of the other set.
    pub fn union_with(&mut self, other: &LabelSet)
        ensures { self.new ≡ set.union self.old other.now }
    {
        join(&mut self.words, &other.words, other.used);
        self.used = self.used.max(other.used);
    }

    /// The lowest member other than the given one.
    pub fn first_other_than(&self, other: Option<DatasetId>) -> Option<DatasetId>
        ensures found { IfSome result (λ d. IsTrue (set.contains self.now d) × (other ≢ Some d)) }
        ensures lowest { IfSome result
            (λ d. (e : ℕ) → e < d → IsTrue (set.contains self.now e) → other ≡ Some e) }
        ensures members { HoldsDatasets self.now }
        ensures none { IfNone result ((e : ℕ) → IsTrue (set.contains self.now e) → other ≡ Some e) }
    {
        lowest_other(&self.words, self.used, &other)
    }

    /// The lowest member that one of two other sets has too.
    pub fn first_shared(&self, left: &LabelSet, right: &LabelSet) -> Option<DatasetId>
        ensures lowest { IfSome result (IsLowestShared self.now left.now right.now) }
        ensures none { IfNone result (SharesNone self.now left.now right.now) }
    {
        lowest_shared(&self.words, self.used, &left.words, &right.words)
    }

    /// Whether the other set has every member.
    pub fn is_within(&self, other: &LabelSet) -> bool
        ensures { IsTrue result ↔ IsWithin self.now other.now }
    {
        lowest_missing(&self.words, self.used, &other.words).is_none()
    }

    /// Whether both sets have a member.
    pub fn meets(&self, other: &LabelSet) -> bool
        ensures { IsTrue result ↔ Meet self.now other.now }
    {
        let used = self.used.min(other.used);
        lowest_shared(&self.words, used, &other.words, &other.words).is_some()
    }
}

// Sets each place that is set in the other row, in which nothing is set from this word on.
fn join(words: &mut [u64; WORDS], other: &[u64; WORDS], used: usize)
    requires { IsClearFrom other.now used }
    ensures { (k : ℕ) → is_set words.new k ≡ (is_set words.old k || is_set other.now k) }
{
    for place in 0..used {
        words[place] = words[place] | other[place];
    }
}

// The lowest place that is set and is not the given one.
fn lowest_other(words: &[u64; WORDS], used: usize, other: &Option<DatasetId>) -> Option<DatasetId>
    requires { IsClearFrom words.now used }
    ensures found { IfSome result (λ d. IsTrue (is_set words.now d && differs other.now d)) }
    ensures lowest { IfSome result (λ d. (k : ℕ) → k < d →
        (is_set words.now k && differs other.now k) ≡ false) }
    ensures none { IfNone result ((k : ℕ) → (is_set words.now k && differs other.now k) ≡ false) }
{
    for place in 0..used {
        let word = without(words[place], place, other);
        if word != 0 {
            return Some(lowest(word, place));
        }
    }
    None
}

// The lowest place that is set in the row and in one of two others, of which there is none from
// this word on.
fn lowest_shared(
    words: &[u64; WORDS],
    used: usize,
    left: &[u64; WORDS],
    right: &[u64; WORDS],
) -> Option<DatasetId>
    requires within { used ≤ WORDS }
    requires clear { (k : ℕ) → 64 * used ≤ k → is_in_one words.now left.now right.now k ≡ false }
    ensures found { IfSome result (λ d. IsTrue (is_in_one words.now left.now right.now d)) }
    ensures lowest { IfSome result (λ d. (k : ℕ) → k < d →
        is_in_one words.now left.now right.now k ≡ false) }
    ensures none { IfNone result ((k : ℕ) → is_in_one words.now left.now right.now k ≡ false) }
{
    for place in 0..used {
        let word = words[place] & (left[place] | right[place]);
        if word != 0 {
            return Some(lowest(word, place));
        }
    }
    None
}

// The lowest place that is set in the row and not in the other.
fn lowest_missing(words: &[u64; WORDS], used: usize, other: &[u64; WORDS]) -> Option<DatasetId>
    requires { IsClearFrom words.now used }
    ensures found { IfSome result (λ d. IsTrue (is_missing words.now other.now d)) }
    ensures lowest { IfSome result (λ d. (k : ℕ) → k < d →
        is_missing words.now other.now k ≡ false) }
    ensures none { IfNone result ((k : ℕ) → is_missing words.now other.now k ≡ false) }
{
    for place in 0..used {
        let word = words[place] & !other[place];
        if word != 0 {
            return Some(lowest(word, place));
        }
    }
    None
}

// The dataset of the lowest bit that is set in the word at this place.
fn lowest(word: u64, place: usize) -> DatasetId
    requires some { 0 < word }
    requires place { place < WORDS }
    ensures { result ≡ 64 * place + trailing_zeros w64 word }
{
    match DatasetId::new(WORD_BITS * place as u32 + word.trailing_zeros()) {
        Some(dataset) => dataset,
        None => unreachable!(),
    }
}

// The word at this place without the bit of the dataset.
fn without(word: u64, place: usize, other: &Option<DatasetId>) -> u64
    ensures { (k : ℕ) → k / 64 ≡ place → is_bit result k ≡ (is_bit word k && differs other.now k) }
{
    match other {
        Some(dataset) => {
            let number = dataset.number();
            if (number / WORD_BITS) as usize == place {
                word & !(1 << (number % WORD_BITS))
            } else {
                word
            }
        }
        None => word,
    }
}
