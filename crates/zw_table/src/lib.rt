//! Tables whose rows are written down in the source: a text with the keys, in rising order, and a value for each. It
//! stands on `arrayvec`, which keeps the rows in the table itself, and takes no memory. It promises that a table is
//! made exactly of a text that tells its keys, and that `find` is the look-up in its rows.
#![tactic(auto)]

ghost use Rattle.std.specs.Prelude.{◌≡◌, ◌↔◌, IsSome, IfSome, IsTrue, option_copied};
ghost use Rattle.std.specs.List.{zip, list_any};
ghost use Rattle.std.specs.Map.{lookup, keys_of};
ghost use Rattle.std.specs.Str.{bytes_eq};
ghost use Rattle.zw_table.specs.Words.{words, tells_keys};

mod keys;
mod macros;

use arrayvec::ArrayVec;
use keys::keys_of;
use std::marker::Model;

/// Rows of a key and a value, in rising order of their keys. Contracts see the list of rows.
#[derive(Drop)]
pub struct Table<V, const N: usize> {
    keys: ArrayVec<&'static str, N>,
    values: ArrayVec<V, N>,
}

impl<V, const N: usize> Model for Table<V, N> {
    ghost use Rattle.std.specs.Prelude.{◌≡◌, List, ℕ, IsTrue, length, map};
    ghost use Rattle.std.specs.List.{zip};
    ghost use Rattle.std.specs.Coded.{coded_ℕ, coded_list, coded×};
    ghost use Rattle.zw_table.specs.Words.{rises};

    ghost Value = { List (List ℕ × V) };

    ghost coded = { coded_list (coded× (coded_list coded_ℕ) V.code) };

    ghost view = { λ t. zip (map (λ k. k.now) t.keys.items) t.values.items };

    ghost invariant = { λ t.
        IsTrue (rises (map (λ k. k.now) t.keys.items)) × (length t.keys.items ≡ length t.values.items) };
}

impl<V, const N: usize> Table<V, N> {
    /// The table with the words of `keys` as its keys, where the k-th value belongs to the k-th word.
    pub fn of(keys: &'static str, values: [V; N]) -> Option<Table<V, N>>
    where
        V: Drop,
        ensures told { IsSome result ↔ IsTrue (tells_keys N keys.now) }
        ensures rows { IfSome result (λ table. table ≡ zip (words keys.now) values) }
    {
        let keys = keys_of(keys)?;
        Some(Table {
            keys,
            values: ArrayVec::from_array_in((), values),
        })
    }

    /// The value of the row that has the key, by binary search.
    pub fn find(&self, key: &str) -> Option<&V>
        ensures { option_copied result ≡ lookup (bytes_eq key.now) self.now }
    {
        match self.keys.as_slice().binary_search(&key) {
            Ok(row) => self.values.as_slice().get(row),
            Err(_) => None,
        }
    }

    /// Whether a row has the key.
    pub fn contains_key(&self, key: &str) -> bool
        ensures { result ≡ list_any (bytes_eq key.now) (keys_of self.now) }
    {
        self.find(key).is_some()
    }
}
