//! A list with one item for each rank.
ghost use Rattle.std.specs.Prelude.{◌≡◌, ◌<◌, length, slice_get, Some};

use std::marker::Model;

/// What each rank brought, in order of rank. Contracts see the list.
#[derive(Drop)]
pub struct Parts<X> {
    items: Vec<X>,
}

impl<X> Model for Parts<X> {
    ghost use Rattle.std.specs.Prelude.{List};

    ghost Value = { List X };

    ghost view = { λ p. p.items.items };
}

impl<X> From<Vec<X>> for Parts<X> {
    ghost from_gives = { λ items result. result ≡ items.items };

    fn from(items: Vec<X>) -> Parts<X> {
        Parts { items }
    }
}

impl<X> Parts<X> {
    /// The number of ranks.
    pub fn len(&self) -> usize
        ensures { result ≡ length self.now }
    {
        self.items.len()
    }

    /// What a rank brought.
    pub fn get(&self, rank: u32) -> &X
        requires { rank < length self.now }
        ensures { slice_get self.now rank ≡ Some result.now }
    {
        &self.items[rank as usize]
    }

    /// The items in order of rank.
    pub fn as_slice(&self) -> &[X]
        ensures { result.now ≡ self.now }
    {
        &self.items
    }

    /// The vector that it was made from, or one like it.
    pub fn into_vec(self) -> Vec<X>
        ensures { result.items ≡ self }
    {
        let Parts { items } = self;
        items
    }
}
