//! Content of elements and documents (XQuery 3.1, section 3.9.1.3), as rows whose levels begin
//! at 0.
ghost use Rattle.std.specs.Prelude.{◌≡◌, ◌&&◌, ◌++◌, ◌∷◌, [], List, true, false, map, filter, string_bytes, IfOk, OnOk};
ghost use Rattle.std.specs.Option.{option_map};
ghost use Rattle.xq_atoms.specs.Atom.{atomic_of};
ghost use Rattle.xq_atoms.specs.Cast.{text_of};
ghost use Rattle.xq_trees.specs.Items.{item_view};
ghost use Rattle.xq_trees.specs.Levels.{flat};
ghost use Rattle.xq_meaning.specs.Content.{content as content_lem};
ghost use Rattle.xq_meaning.specs.Readings.{item_at, items_at};
ghost use Rattle.xq_build.specs.private.Leaves.{Leaf, leaves};
ghost use Rattle.xq_build.specs.private.Content.{longer, open_text, is_top_text as is_top_text_lem, merged_leaves, AreApart, is_kept as is_kept_lem, is_loose as is_loose_lem, are_settled as are_settled_lem, ends_with_text, HasNamelessEnd};
ghost use Rattle.xq_build.specs.private.Surplus.{is_full, AreSeen, StandsFor, Takes, Flattens};

use crate::copies::append_content;
use crate::surplus::{Gauge, append_judged};
use indexmap::IndexSet;
use std::alloc::Global;
use xq_atoms::{Atom, Want};
use xq_packed::{PackedRow, PackedRows};
use xq_sources::RowLender;
use xq_trees::{Item, Kind};

/// The text of a run of atomic values with another one, after a space.
fn lengthened(alloc: Global, run: Option<String>, atom: &Atom) -> Result<String, Want>
    ensures { IfOk result (λ text. string_bytes text
        ≡ longer (option_map string_bytes run) (text_of (atomic_of atom.now))) }
{
    let value = xq_atoms::cast_str(alloc, atom)?;
    let Some(mut text) = run else {
        return Ok(value);
    };
    text.push(' ')?;
    text.push_str(value.as_str())?;
    Ok(text)
}

/// Adds the text of a run of atomic values, where there is one.
fn append_run(rows: &mut PackedRows, run: Option<String>) -> Result<(), Want>
    ensures { OnOk result (map flat rows.new.rows
        ≡ map flat rows.old.rows ++ leaves (open_text (option_map string_bytes run))) }
{
    if let Some(value) = run {
        rows.push_parts(0, 0, Kind::Text, "", value.as_str())?;
    }
    Ok(())
}

/// Adds an item's nodes, after the run of atomic values before it; an atomic value lengthens the
/// run instead. After rows that are known to be too many a node is judged, and not copied.
fn take_item<L: RowLender>(
    alloc: Global,
    source: &mut L,
    rows: &mut PackedRows,
    seen: &mut IndexSet<usize>,
    full: bool,
    run: Option<String>,
    item: &Item,
) -> Result<Option<String>, Want>
    ensures takes { L.is_clean source.new
        → (full ≡ true → is_full (map flat rows.old.rows) ≡ true)
        → AreSeen (L.forest source.old) (map flat rows.old.rows) seen.old.keys
        → IfOk result (λ next. Takes (L.forest source.old)
        (item_at (L.forest source.old) (item_view item.now))
        (map flat rows.old.rows) (option_map string_bytes run)
        (map flat rows.new.rows) (option_map string_bytes next) seen.new.keys) }
    ensures keeps { L.forest source.new ≡ L.forest source.old }
    ensures was_clean { L.is_clean source.new → L.is_clean source.old }
{
    match item {
        Item::Atom(atom) => Ok(Some(lengthened(alloc, run, atom)?)),
        Item::Node(node) => {
            append_run(rows, run)?;
            if full {
                append_judged(alloc, source, rows, seen, *node)?;
                return Ok(None);
            }
            append_content(alloc, source, rows, *node)?;
            Ok(None)
        }
    }
}

/// The items as nodes, still with texts side by side and empty ones. Where they are too many,
/// nodes that are judged as these are, no more than are needed for that.
fn flattened<L: RowLender>(
    alloc: Global,
    source: &mut L,
    items: &[Item],
) -> Result<PackedRows, Want>
    ensures flattens { L.is_clean source.new → IfOk result (λ rows. Flattens (L.forest source.old)
        (items_at (L.forest source.old) (map item_view items.now)) (map flat rows.rows)) }
    ensures keeps { L.forest source.new ≡ L.forest source.old }
    ensures was_clean { L.is_clean source.new → L.is_clean source.old }
{
    let mut rows = PackedRows::new(alloc);
    let mut seen = IndexSet::new(alloc);
    let mut gauge = Gauge::new();
    let mut run = None;
    for item in items {
        let full = gauge.reads(&rows);
        run = take_item(alloc, source, &mut rows, &mut seen, full, run, item)?;
    }
    append_run(&mut rows, run)?;
    Ok(rows)
}

/// Whether the row is that of a text at the top.
pub fn is_top_text(row: &PackedRow<'_>) -> bool
    ensures { result ≡ is_top_text_lem (flat row.now.row) }
{
    row.level() == 0 && row.kind() == Kind::Text
}

/// Whether the row and the last one before it are texts at the top. Where that one has a name, as
/// no text of a tree has, `Want::Store` is answered.
fn continues_text(rows: &PackedRows, row: &PackedRow<'_>) -> Result<bool, Want>
    ensures told { IfOk result (λ both. both ≡ (ends_with_text (map flat rows.now.rows)
        && is_top_text_lem (flat row.now.row))) }
    ensures nameless { IfOk result (λ both. both ≡ true
        → HasNamelessEnd (map flat rows.now.rows)) }
{
    if rows.is_empty() {
        return Ok(false);
    }
    if !is_top_text(row) {
        return Ok(false);
    }
    let last = PackedRow::new(rows, rows.len() - 1);
    if !is_top_text(&last) {
        return Ok(false);
    }
    if !last.name().is_empty() {
        return Err(Want::Store);
    }
    Ok(true)
}

/// Adds a row after others.
fn append_row(rows: &mut PackedRows, row: &PackedRow<'_>) -> Result<(), Want>
    ensures { OnOk result (rows.new.rows ≡ rows.old.rows ++ row.now.row ∷ []) }
{
    rows.push_parts(row.size(), row.level(), row.kind(), row.name(), row.value())
}

/// Adds a row; a text beside a text lengthens that one.
fn append_merged(rows: &mut PackedRows, row: &PackedRow<'_>) -> Result<(), Want>
    ensures merges { OnOk result ((others : List Leaf)
        → merged_leaves (map flat rows.new.rows ++ others)
        ≡ merged_leaves (map flat rows.old.rows ++ flat row.now.row ∷ others)) }
    ensures apart { OnOk result (AreApart (map flat rows.old.rows)
        → AreApart (map flat rows.new.rows)) }
{
    if continues_text(rows, row)? {
        rows.extend_last(row.value())?;
        return Ok(());
    }
    append_row(rows, row)?;
    Ok(())
}

/// The rows with one text for texts side by side.
fn merged(alloc: Global, rows: &PackedRows) -> Result<PackedRows, Want>
    ensures { IfOk result (λ all. map flat all.rows ≡ merged_leaves (map flat rows.now.rows)) }
{
    let mut all = PackedRows::new(alloc);
    for at in 0..rows.len() {
        append_merged(&mut all, &PackedRow::new(rows, at))?;
    }
    Ok(all)
}

/// Whether the row is that of no empty text at the top.
fn is_kept(row: &PackedRow<'_>) -> bool
    ensures { result ≡ is_kept_lem (flat row.now.row) }
{
    !is_top_text(row) || !row.value().is_empty()
}

/// Adds a row, where it is that of no empty text at the top.
fn append_kept(rows: &mut PackedRows, row: &PackedRow<'_>) -> Result<(), Want>
    ensures { OnOk result (map flat rows.new.rows
        ≡ map flat rows.old.rows ++ filter is_kept_lem (flat row.now.row ∷ [])) }
{
    if !is_kept(row) {
        return Ok(());
    }
    append_row(rows, row)?;
    Ok(())
}

/// The rows without empty texts.
fn without_empty_texts(alloc: Global, rows: &PackedRows) -> Result<PackedRows, Want>
    ensures { IfOk result (λ kept. map flat kept.rows
        ≡ filter is_kept_lem (map flat rows.now.rows)) }
{
    let mut kept = PackedRows::new(alloc);
    for at in 0..rows.len() {
        append_kept(&mut kept, &PackedRow::new(rows, at))?;
    }
    Ok(kept)
}

/// Whether the row is that of a text at the top which is empty, or stands after another one.
fn is_loose(is_after_text: bool, row: &PackedRow<'_>) -> bool
    ensures { result ≡ is_loose_lem is_after_text (flat row.now.row) }
{
    is_top_text(row) && (is_after_text || row.value().is_empty())
}

/// Whether no text at the top is empty, or stands beside another one.
fn are_settled(rows: &PackedRows) -> bool
    ensures { result ≡ are_settled_lem false (map flat rows.now.rows) }
{
    let mut is_after_text = false;
    for at in 0..rows.len() {
        let row = PackedRow::new(rows, at);
        if is_loose(is_after_text, &row) {
            return false;
        }
        is_after_text = is_top_text(&row);
    }
    true
}

/// The rows with one text for texts side by side, and without empty ones.
fn settled(alloc: Global, rows: PackedRows) -> Result<PackedRows, Want>
    ensures { IfOk result (λ all. map flat all.rows
        ≡ filter is_kept_lem (merged_leaves (map flat rows.rows))) }
{
    if are_settled(&rows) {
        return Ok(rows);
    }
    let all = merged(alloc, &rows)?;
    if are_settled(&all) {
        return Ok(all);
    }
    without_empty_texts(alloc, &all)
}

/// The content that the items make, or where it has too many nodes to stand in a tree, nodes that
/// are judged as it is: from where that is known on, no node is copied.
pub fn content<L: RowLender>(
    alloc: Global,
    source: &mut L,
    items: &[Item],
) -> Result<PackedRows, Want>
    ensures content { L.is_clean source.new → IfOk result (λ rows. StandsFor
        (map flat rows.rows) (content_lem (L.forest source.old)
        (items_at (L.forest source.old) (map item_view items.now)))) }
    ensures keeps { L.forest source.new ≡ L.forest source.old }
    ensures was_clean { L.is_clean source.new → L.is_clean source.old }
{
    let rows = flattened(alloc, source, items)?;
    let rows = settled(alloc, rows)?;
    Ok(rows)
}
