//! Values by their key.
ghost use Rattle.std.specs.Prelude.{◌≡◌, filter};
ghost use Rattle.std.specs.List.Sorted.{IsPermutation};
ghost use Rattle.std.specs.Ordering.{is_eq};

use std::marker::Model;

/// Pairs of a key and a value, in the order of the keys, so the pairs of one key are next to each other.
#[derive(Drop)]
pub(crate) struct Index<K: Ord + Copy, V: Copy> {
    pairs: Vec<(K, V)>,
}

impl<K: Ord + Copy, V: Copy> Model for Index<K, V> {
    ghost use Rattle.std.specs.Prelude.{List};
    ghost use Rattle.std.specs.List.Sorted.{IsSortedByKey};

    ghost Value = { List (K × V) };

    ghost view = { λ index. index.pairs.items };

    ghost invariant = { λ index. IsSortedByKey (λ pair. pair.0) K.cmp index.pairs.items };
}

impl<K: Ord + Copy, V: Copy> Index<K, V> {
    /// An index of these pairs.
    pub(crate) fn new(mut pairs: Vec<(K, V)>) -> Self
        ensures { IsPermutation pairs.items result }
    {
        pairs.sort_unstable_by_key(|pair| pair.0);
        Index { pairs }
    }

    /// The pairs with this key.
    pub(crate) fn at(&self, key: &K) -> &[(K, V)]
        ensures { result.now ≡ filter (λ pair. is_eq (K.cmp pair.0 key.now)) self.now }
    {
        let pairs = self.pairs.as_slice();
        let start = pairs.partition_point(|pair| pair.0.cmp(key).is_lt());
        let end = pairs.partition_point(|pair| pair.0.cmp(key).is_le());
        &pairs[start..end]
    }
}
