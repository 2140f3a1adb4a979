//! The keys of a table.

ghost use Rattle.std.specs.Prelude.{◌≡◌, map, not, option_map, string_bytes};
ghost use Rattle.std.specs.BTreeMap.{keys};
ghost use Rattle.std.specs.List.{find, list_all};
ghost use Rattle.toml.specs.View.{table_view};
ghost use Rattle.lpt_settings.specs.Keys.{is_one_of, has_only, unknown_key};

use toml::Table;

/// The keys of a configuration.
pub(crate) const KEYS: [&str; 11] = [
    "apid",
    "source",
    "part_size",
    "timeout",
    "receptions",
    "outgoing",
    "clock",
    "mode",
    "per_seat",
    "ticks",
    "memory",
];

/// The keys of a memory.
pub(crate) const MEMORY_KEYS: [&str; 3] = ["id", "size", "fill"];

/// Whether each key of the table is one of the words.
pub fn has_only(table: &Table, words: &[&str]) -> bool
    ensures { result ≡ has_only (map (λ w. w.now) words.now) (table_view table.now) }
{
    are_keys_among(table, words)
}

// Whether each key of the map is one of the words.
fn are_keys_among(table: &Table, words: &[&str]) -> bool
    ensures { result ≡ list_all
        (λ key. is_one_of (map (λ w. w.now) words.now) (string_bytes key)) (keys table.now) }
{
    table.keys().all(|key| is_one_of(key.as_str(), words))
}

/// The first key of the table that is none of the words; the empty text if each is one.
pub fn unknown_key<'t>(table: &'t Table, words: &[&str]) -> &'t str
    ensures { result.now ≡ unknown_key (map (λ w. w.now) words.now) (table_view table.now) }
{
    match first_unknown(table, words) {
        Some(key) => key.as_str(),
        None => "",
    }
}

// The first key of the map that is none of the words.
fn first_unknown<'t>(table: &'t Table, words: &[&str]) -> Option<&'t String>
    ensures { option_map (λ key. key.now) result ≡ find
        (λ key. not (is_one_of (map (λ w. w.now) words.now) (string_bytes key))) (keys table.now) }
{
    table.keys().find(|key| !is_one_of(key.as_str(), words))
}

// Whether the key is one of the words.
fn is_one_of(key: &str, words: &[&str]) -> bool
    ensures { result ≡ is_one_of (map (λ w. w.now) words.now) key.now }
{
    for word in words {
        if key == *word {
            return true;
        }
    }
    false
}
