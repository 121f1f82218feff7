//! The keys of tables.
ghost use Rattle.std.specs.Prelude.{◌≡◌, option_map, find, not};
ghost use Rattle.std.specs.List.{list_any};
ghost use Rattle.std.specs.Str.{bytes_eq};
ghost use Rattle.toml.specs.Data.{get_member};
ghost use Rattle.toml.specs.View.{view, table_view};
ghost use Rattle.policy_tree.specs.TreeKeys.{known_in, keys_of, is_known as knows};

use toml::{Table, Value};

/// The keys that a table may have.
#[derive(Clone, Copy)]
pub enum KeySet {
    Policy,
    Release,
    Run,
}

/// The value at a key.
pub fn value_at<'a>(table: &'a Table, key: &str) -> Option<&'a Value>
    ensures { option_map (λ v. view v.now) result ≡ get_member key.now (table_view table.now) }
{
    table.get(key)
}

fn is_known(keys: KeySet, key: &str) -> bool
    ensures { result ≡ knows keys key.now }
{
    match keys {
        KeySet::Policy => {
            [
                "levels",
                "flows",
                "observers",
                "contexts",
                "entry",
                "sources",
                "sinks",
                "releases",
            ]
            .contains(&key)
        }
        KeySet::Release => ["from", "to"].contains(&key),
        KeySet::Run => ["steps", "schedule", "inputs"].contains(&key),
    }
}

/// The first key of a table that it may not have.
pub fn first_unknown(keys: KeySet, table: &Table) -> Option<&str>
    ensures { option_map (λ key. key.now) result ≡ find (λ key. not (knows keys key)) (keys_of (table_view table.now)) }
{
    for (key, _) in table {
        if !is_known(keys, key.as_str()) {
            return Some(key.as_str());
        }
    }
    None
}
