//! The first indices of texts in lists.
ghost use Rattle.std.specs.Prelude.{◌≡◌, ◌+◌, ◌<◌, ◌^◌, ◌++◌, ◌∷◌, [], List, ℕ, length, IfOk, OnOk, OnErr, MatchResult};
ghost use Rattle.std.specs.Prelude.{Some, None, option_map, option_and_then, if◌then◌else◌};
ghost use Rattle.std.specs.Option.{option_or, option_map_or};
ghost use Rattle.indexmap.specs.IndexMap.{IsUnchanged};
ghost use Rattle.toml.specs.Data.{as_str, get};
ghost use Rattle.toml.specs.View.{view, items_view};
ghost use Rattle.first_index.specs.Indices.{index_at};
ghost use Rattle.toml_tree.specs.Texts.{texts_after, is_the_text};
ghost use Rattle.toml_tree.specs.FirstIndices.{KeepsIndices, AddsIndices, AddsPrefix, earlier_from, counted};

use first_index::add_index;
use indexmap::IndexMap;
use std::alloc::{AllocError, Global};
use toml::Value;

fn text_of<'a>(value: &'a Value, key: &str) -> Option<&'a str>
    ensures { option_map (λ text. text.now) result ≡ option_and_then as_str (get key.now (view value.now)) }
{
    match value.get(key) {
        Some(found) => found.as_str(),
        None => None,
    }
}

fn add_text<'a>(
    indices: &mut IndexMap<&'a [u8], u64>,
    text: Option<&'a str>,
    index: u64,
) -> Result<(), AllocError>
    ensures added { OnOk result ((q : List ℕ) →
        index_at indices.new q ≡ option_or (index_at indices.old q)
        (if is_the_text q (option_map (λ t. t.now) text.entry) then Some index else None)) }
    ensures same { OnErr result (IsUnchanged indices.old indices.new) }
{
    match text {
        Some(text) => add_index(indices, text.as_bytes(), index),
        None => Ok(()),
    }
}

/// Adds the texts at a key of some values, where the first value's index is `from`. A text that has an index keeps it.
///
/// It takes memory. AllocError comes where memory is lacking for the text of some value: the texts of the values before
/// it are then added, and no other.
pub fn add_indices<'a>(
    indices: &mut IndexMap<&'a [u8], u64>,
    values: &'a [Value],
    key: &str,
    from: u64,
) -> Result<(), AllocError>
    requires { from + length values.now < 2 ^ 64 }
    ensures { let texts = texts_after key.now (items_view values.now) in
        MatchResult result (λ _. AddsIndices indices.old indices.new from texts)
        (λ _. AddsPrefix indices.old indices.new from texts) }
{
    for (i, value) in values.iter().enumerate() {
        add_text(indices, text_of(value, key), from + i as u64)?;
    }
    Ok(())
}

/// The first index of each text at a key of some values, from 0. AllocError comes where memory is lacking.
pub fn indices_of<'a>(
    alloc: Global,
    values: &'a [Value],
    key: &str,
) -> Result<IndexMap<&'a [u8], u64>, AllocError>
    ensures { IfOk result (λ indices. KeepsIndices indices (texts_after key.now (items_view values.now))) }
{
    let mut indices = IndexMap::new(alloc);
    add_indices(&mut indices, values, key, 0)?;
    Ok(indices)
}

fn count_at(counts: &IndexMap<&str, u64>, text: &str) -> u64
    ensures { result ≡ counted counts.now text.now }
{
    match counts.get(text) {
        Some(count) => *count,
        None => 0,
    }
}

/// Counts a text, and says how often it was counted before.
fn count_text<'a>(
    counts: &mut IndexMap<&'a str, u64>,
    text: Option<&'a str>,
) -> Result<u64, AllocError>
    requires { (q : List ℕ) → counted counts.old q + 1 < 2 ^ 64 }
    ensures before { IfOk result
        (λ n. n ≡ option_map_or (λ q. counted counts.old q) (option_map (λ t. t.now) text.entry) 0) }
    ensures counts { OnOk result ((q : List ℕ) →
        counted counts.new q ≡ counted counts.old
        q + (if is_the_text q (option_map (λ t. t.now) text.entry) then 1 else 0)) }
{
    match text {
        Some(text) => {
            let before = count_at(counts, text);
            counts.insert(text, before + 1)?;
            Ok(before)
        }
        None => Ok(0),
    }
}

/// Appends how often the text at a key of a value was counted before, and counts it. AllocError comes where memory is
/// lacking.
fn add_earlier<'a>(
    counts: &mut IndexMap<&'a str, u64>,
    earlier: &mut Vec<u64>,
    value: &'a Value,
    key: &str,
) -> Result<(), AllocError>
    requires { (q : List ℕ) → counted counts.old q + 1 < 2 ^ 64 }
    ensures before { OnOk result
        (earlier.new.items ≡ earlier.old.items ++ (option_map_or (λ q. counted counts.old q)
        (option_and_then as_str (get key.now (view value.now))) 0 ∷ [])) }
    ensures counts { OnOk result ((q : List ℕ) →
        counted counts.new q ≡ counted counts.old
        q + (if is_the_text q (option_and_then as_str (get key.now (view value.now))) then 1 else 0)) }
{
    let before = count_text(counts, text_of(value, key))?;
    earlier.push(before)?;
    Ok(())
}

/// For each value, how many of the values before it have its text at a key. AllocError comes where memory is lacking.
pub fn earlier_of(alloc: Global, values: &[Value], key: &str) -> Result<Vec<u64>, AllocError>
    ensures { IfOk result (λ earlier. earlier.items ≡ earlier_from [] (texts_after key.now (items_view values.now))) }
{
    let mut counts = IndexMap::new(alloc);
    let mut earlier = Vec::new(alloc);
    for value in values {
        add_earlier(&mut counts, &mut earlier, value, key)?;
    }
    Ok(earlier)
}
