//! Things with their numbers, ascending.
ghost use Rattle.std.specs.Prelude.{◌≡◌, ◌<◌, ◌≤◌, length, IfSome, IfNone, IsTrue, IsFalse};
ghost use Rattle.std.specs.List.Sorted.{IsNonDecreasingBy, IsPartitionPoint};
ghost use Rattle.hall_core.specs.Slots.{IsAt, IsAbsent};

/// A thing with its number.
pub struct Slot<T> {
    pub number: usize,
    pub thing: T,
}

// By hand: a derived one is proved anew in each crate that drops one.
impl<T: Drop> Drop for Slot<T> {
    fn drop(self) {
        let Slot { number: _, thing } = self;
        drop(thing);
    }
}

/// Where that number stands, if it is there. Where no number between is missing, that is as far
/// behind the first as the number is above the first's; otherwise it is found by halving.
pub fn place_of<T>(slots: &[Slot<T>], number: usize) -> Option<usize>
    requires { IsNonDecreasingBy (λ s. s.number) slots.now }
    ensures at { IfSome result (IsAt number slots.now) }
    ensures none { IfNone result (IsAbsent number slots.now) }
{
    let near = distance(slots, number);
    if is_at(slots, number, near) {
        return Some(near);
    }
    let at = place_for(slots, number);
    if is_at(slots, number, at) {
        Some(at)
    } else {
        None
    }
}

/// Where that number would stand: behind all that are lower, before all others.
pub fn place_for<T>(slots: &[Slot<T>], number: usize) -> usize
    requires { IsNonDecreasingBy (λ s. s.number) slots.now }
    ensures within { result ≤ length slots.now }
    ensures between { IsPartitionPoint (λ s. s.number < number) (λ s. number ≤ s.number)
        slots.now result }
{
    slots.partition_point(|slot| slot.number < number)
}

// How far the number is above the first.
fn distance<T>(slots: &[Slot<T>], number: usize) -> usize {
    match slots.first() {
        Some(slot) => number.saturating_sub(slot.number),
        None => 0,
    }
}

// Whether the number stands at that place.
fn is_at<T>(slots: &[Slot<T>], number: usize, at: usize) -> bool
    ensures yes { IsTrue result → IsAt number slots.now at }
    ensures no { IsFalse result → IsAt number slots.now at → ⊥ }
{
    match slots.get(at) {
        Some(slot) => slot.number == number,
        None => false,
    }
}
