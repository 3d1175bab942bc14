//! The values at the keys of a table.
ghost use Rattle.std.specs.Prelude.{◌≡◌, ◌≤◌, option_map};
ghost use Rattle.toml.specs.Data.{get_item, get_member, as_array};
ghost use Rattle.toml.specs.View.{view, table_view, items_view};
ghost use Rattle.toml_tree.specs.Items.{items_len};
ghost use Rattle.toml_tree.specs.Values.{is_between, ranged, integer_of, integer_at, month_number, monthly_of, text_at};
ghost use Rattle.toml_tree.specs.Values.{text_or_empty};

use toml::{Table, Value};

/// The value at a key.
pub fn member<'a>(row: &'a Table, key: &str) -> Option<&'a Value>
    ensures { option_map (λ x. view x.now) result ≡ get_member key.now (table_view row.now) }
{
    row.get(key)
}

/// The items of a value that is a list.
pub fn items_of(value: &Value) -> Option<&[Value]>
    ensures { option_map (λ values. items_view values.now) result ≡ as_array (view value.now) }
{
    match value.as_array() {
        Some(values) => Some(values.as_slice()),
        None => None,
    }
}

/// The item at an index.
pub fn item_at(items: &[Value], at: u64) -> Option<&Value>
    ensures { option_map (λ x. view x.now) result ≡ get_item at (items_view items.now) }
{
    items.get(at as usize)
}

/// The text at a key.
pub fn text_at<'a>(row: &'a Table, key: &str) -> Option<&'a str>
    ensures { option_map (λ text. text.now) result ≡ text_at key.now (table_view row.now) }
{
    match member(row, key) {
        Some(value) => value.as_str(),
        None => None,
    }
}

/// The text at a key, or the empty one.
pub fn text_or_empty<'a>(row: &'a Table, key: &str) -> &'a str
    ensures { result.now ≡ text_or_empty key.now (table_view row.now) }
{
    match text_at(row, key) {
        Some(text) => text,
        None => "",
    }
}

/// Whether a number is from `least` to `most`.
pub fn is_between(z: i64, least: u64, most: u64) -> bool
    ensures { result ≡ is_between least most z }
{
    z >= 0 && least <= z as u64 && z as u64 <= most
}

fn ranged(z: i64, least: u64, most: u64, default: u64) -> u64
    ensures value { result ≡ ranged least most default z }
    ensures range { least ≤ default → default ≤ most → (least ≤ result) × (result ≤ most) }
{
    if z >= 0 && least <= z as u64 && z as u64 <= most {
        z as u64
    } else {
        default
    }
}

/// The whole number that a value is, from `least` to `most`, or the default where it is none.
pub fn integer_of(value: Option<&Value>, least: u64, most: u64, default: u64) -> u64
    ensures value { result ≡ integer_of least most default (option_map (λ x. view x.now) value.entry) }
    ensures range { least ≤ default → default ≤ most → (least ≤ result) × (result ≤ most) }
{
    match value {
        Some(value) => match value.as_integer() {
            Some(z) => ranged(z, least, most, default),
            None => default,
        },
        None => default,
    }
}

/// The whole number at a key, from `least` to `most`, or the default where there is none.
pub fn integer_at(row: &Table, key: &str, least: u64, most: u64, default: u64) -> u64
    ensures value { result ≡ integer_at key.now least most default (table_view row.now) }
    ensures range { least ≤ default → default ≤ most → (least ≤ result) × (result ≤ most) }
{
    integer_of(member(row, key), least, most, default)
}

fn month_number(value: Option<&Value>, month: u64, most: u64) -> u64
    ensures { result ≡ month_number most (option_map (λ x. view x.now) value.entry) month }
{
    match value {
        Some(found) => match items_of(found) {
            Some(items) => integer_of(item_at(items, month), 0, most, 0),
            None => integer_of(value, 0, most, 0),
        },
        None => 0,
    }
}

/// The twelve numbers at a key, from January to December: one number for all, or a list.
pub fn monthly_at(row: &Table, key: &str, most: u64) -> [u64; 12]
    ensures { result ≡ monthly_of most (get_member key.now (table_view row.now)) }
{
    let value = member(row, key);
    let mut months = [0; 12];
    for i in 0..12 {
        months[i as usize] = month_number(value, i, most);
    }
    months
}

/// How many items a list has.
pub fn count_of(items: &[Value]) -> u64
    ensures { result ≡ items_len (items_view items.now) }
{
    items.len() as u64
}
