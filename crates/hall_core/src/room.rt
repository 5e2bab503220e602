//! Room of vectors that is given back.
ghost use Rattle.std.specs.Prelude.{◌≡◌};

/// Room for so many is kept for good: a process may have as many open requests. (Own rule.)
const KEPT_ROOM: usize = 256;

/// Gives room back where less than a quarter of it is used. Half of what is left is free then, so
/// many calls come before it is too much again, or too little. Where the memory for the smaller
/// room is refused the larger one stays.
pub fn give_back<T>(vector: &mut Vec<T>)
    ensures { vector.new.items ≡ vector.old.items }
{
    let (used, room) = (vector.len(), vector.capacity());
    if KEPT_ROOM < room && used < room / 4 {
        vector.shrink_to(KEPT_ROOM.max(2 * used));
    }
}
