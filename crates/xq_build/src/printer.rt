//! The text of a result. A node is printed from its rows: one number is kept, how many nodes are
//! open.
ghost use Rattle.std.specs.Prelude.{◌≡◌, ◌+◌, ◌-◌, ◌≤◌, ◌∷◌, [], length, map, string_bytes, IfOk, OnOk};
ghost use Rattle.std.specs.Char.{encode_utf8};
ghost use Rattle.xq_atoms.specs.Atom.{atomic_of};
ghost use Rattle.xq_atoms.specs.Print.{print_atomic, quoted, escaped};
ghost use Rattle.xq_trees.specs.Items.{item_view};
ghost use Rattle.xq_trees.specs.Print.{heading, content, opening, print};
ghost use Rattle.xq_trees.specs.Printing.{closing, between, text_from};
ghost use Rattle.xq_sources.specs.Lent.{placed_lent, row_lent};
ghost use Rattle.xq_sources.specs.Sources.{tree_at};
ghost use Rattle.xq_meaning.specs.Print.{longest_text, print_item, print_items as printed_items, within_reply};
ghost use Rattle.xq_meaning.specs.Items.{tree_below};
ghost use Rattle.xq_meaning.specs.Readings.{item_at, items_at, node_at};
ghost use Rattle.xq_atoms.specs.Answers.{GivesUnlessWanting};
ghost use Rattle.xq_build.specs.Reads.{ReadsItems};
ghost use Rattle.xq_build.specs.private.Leaves.{leaf, lowered, leaves_between, IsRowOf};
ghost use Rattle.xq_build.specs.private.Printing.{ReadsItem};
ghost use Rattle.xq_build.specs.private.Writing.{Appends, GoesOn, each_after_comma, escape_char};

use crate::kinds::{is_named, is_valued, word};
use crate::node_copies::row_of_node;
use std::alloc::Global;
use xq_atoms::{Atom, Code, Fault, Want};
use xq_sources::{LentRow, LentRows, RowLender};
use xq_trees::{Item, Kind, Node, NodeRow};

/// The greatest length of a reply's text, in bytes.
const MAX_REPLY: usize = 16_777_216;

/// Writes the piece at the end of the text, which has at most `limit` bytes then.
fn append(text: &mut String, limit: usize, piece: &str) -> Result<(), Fault>
    ensures { Appends limit piece.now result text.old text.new }
{
    if text.len().saturating_add(piece.len()) > limit {
        return Err(Fault::Code(Code::ProfReply));
    }
    text.push_str(piece)?;
    Ok(())
}

/// Writes a character that stands for itself in a string literal.
fn append_char(text: &mut String, limit: usize, character: char) -> Result<(), Fault>
    ensures { Appends limit (encode_utf8 character) result text.old text.new }
{
    if text.len().saturating_add(character.len_utf8()) > limit {
        return Err(Fault::Code(Code::ProfReply));
    }
    text.push(character)?;
    Ok(())
}

/// Writes a character of a string literal (XQuery 3.1, section 3.1.1): a quote is doubled, and
/// what would be read otherwise stands as a reference.
fn append_escaped(text: &mut String, limit: usize, character: char) -> Result<(), Fault>
    ensures { Appends limit (escape_char character) result text.old text.new }
{
    match character {
        '"' => append(text, limit, "\"\""),
        '&' => append(text, limit, "&amp;"),
        '\r' => append(text, limit, "&#xD;"),
        _ => append_char(text, limit, character),
    }
}

/// Writes the characters of a string literal.
fn append_value(text: &mut String, limit: usize, value: &str) -> Result<(), Fault>
    requires { length (string_bytes text.old) ≤ limit }
    ensures { Appends limit (escaped value.now) result text.old text.new }
{
    for character in value.chars() {
        append_escaped(text, limit, character)?;
    }
    Ok(())
}

/// Writes a string literal.
fn append_quoted(text: &mut String, limit: usize, value: &str) -> Result<(), Fault>
    ensures { Appends limit (quoted value.now) result text.old text.new }
{
    append(text, limit, "\"")?;
    append_value(text, limit, value)?;
    append(text, limit, "\"")
}

/// Writes the name, where the kind has one.
fn append_heading(text: &mut String, limit: usize, kind: Kind, name: &str) -> Result<(), Fault>
    requires { length (string_bytes text.old) ≤ limit }
    ensures { Appends limit (heading kind name.now) result text.old text.new }
{
    if !is_named(kind) {
        return Ok(());
    }
    append(text, limit, name)?;
    append(text, limit, " {")
}

/// Writes the value, where the kind has one.
fn append_content(text: &mut String, limit: usize, kind: Kind, value: &str) -> Result<(), Fault>
    requires { length (string_bytes text.old) ≤ limit }
    ensures { Appends limit (content kind value.now) result text.old text.new }
{
    if !is_valued(kind) {
        return Ok(());
    }
    append_quoted(text, limit, value)
}

/// Writes what stands at a node before its attributes and children.
fn append_opening(text: &mut String, limit: usize, row: &LentRow<'_>) -> Result<(), Fault>
    ensures { Appends limit (opening (row_lent row.now).label) result text.old text.new }
{
    append(text, limit, word(row.kind))?;
    append_heading(text, limit, row.kind, row.name())?;
    append_content(text, limit, row.kind, row.value())
}

/// Closes so many nodes.
fn append_closing(text: &mut String, limit: usize, count: u64) -> Result<(), Fault>
    requires { length (string_bytes text.old) ≤ limit }
    ensures { Appends limit (closing count) result text.old text.new }
{
    for _close in 0..count {
        append(text, limit, "}")?;
    }
    Ok(())
}

/// Writes what stands between a node and the next one, of the level `level`, where `depth`
/// nodes are open.
fn append_between(text: &mut String, limit: usize, depth: u64, level: u64) -> Result<(), Fault>
    requires { length (string_bytes text.old) ≤ limit }
    ensures { Appends limit (between depth level) result text.old text.new }
{
    if level >= depth {
        return Ok(());
    }
    append_closing(text, limit, depth - level)?;
    append(text, limit, ", ")
}

/// Writes the node of the row, so many levels further up, where `depth` nodes are open; tells how
/// many are open then.
fn append_row(
    text: &mut String,
    limit: usize,
    depth: u64,
    base: u32,
    row: &LentRow<'_>,
) -> Result<u64, Fault>
    requires { length (string_bytes text.old) ≤ limit }
    ensures { GoesOn limit depth (lowered base (leaf (placed_lent row.now)) ∷ []) result
        text.old text.new }
{
    let level = u64::from(row.level.saturating_sub(base));
    append_between(text, limit, depth, level)?;
    append_opening(text, limit, row)?;
    Ok(level + 1)
}

/// Writes the nodes of the rows, as [`append_row`] does.
fn append_run(
    text: &mut String,
    limit: usize,
    depth: u64,
    base: u32,
    rows: &LentRows<'_>,
) -> Result<u64, Fault>
    requires { length (string_bytes text.old) ≤ limit }
    ensures { GoesOn limit depth (map (lowered base) (map leaf rows.now)) result
        text.old text.new }
{
    let mut depth = depth;
    for at in 0..rows.len() {
        depth = append_row(text, limit, depth, base, &rows.row(at))?;
    }
    Ok(depth)
}

/// Writes the nodes of the tree from `low` to `high`, so many levels further up, where `depth`
/// nodes are open, and closes all.
fn append_nodes<L: RowLender>(
    alloc: Global,
    source: &mut L,
    text: &mut String,
    limit: usize,
    depth: u64,
    base: u32,
    tree: usize,
    low: usize,
    high: u32,
) -> Result<(), Fault>
    requires { length (string_bytes text.old) ≤ limit }
    ensures appends { L.is_clean source.new → Appends limit
        (text_from depth (map (lowered base)
        (leaves_between (tree_at (L.forest source.old) tree) low high))) result
        text.old text.new }
    ensures within { OnOk result (length (string_bytes text.new) ≤ limit) }
    ensures rows { L.is_clean source.new
        → (L.meter source.new).rows ≤ (L.meter source.old).rows + (high + 1 - low) }
    ensures singles { (L.meter source.new).singles ≡ (L.meter source.old).singles }
    ensures keeps { L.forest source.new ≡ L.forest source.old }
    ensures was_clean { L.is_clean source.new → L.is_clean source.old }
{
    let mut depth = depth;
    let mut next = low;
    while next <= high as usize {
        source.fetch(alloc, tree, next as u32, high)?;
        let run = source.lent();
        if run.is_empty() {
            return append_closing(text, limit, depth);
        }
        depth = append_run(text, limit, depth, base, &run)?;
        next = next.saturating_add(run.len());
    }
    append_closing(text, limit, depth)
}

/// Writes the node whose row this is, and all that is below it.
fn append_node<L: RowLender>(
    alloc: Global,
    source: &mut L,
    text: &mut String,
    limit: usize,
    node: Node,
    root: &NodeRow,
) -> Result<(), Fault>
    requires { length (string_bytes text.old) ≤ limit }
    ensures appends { L.is_clean source.new → IsRowOf (L.forest source.old) node root.now
        → Appends limit (print (tree_below (L.forest source.old)
        (node_at (L.forest source.old) node))) result text.old text.new }
    ensures within { OnOk result (length (string_bytes text.new) ≤ limit) }
    ensures rows { L.is_clean source.new
        → (L.meter source.new).rows ≤ (L.meter source.old).rows + root.now.size }
    ensures singles { (L.meter source.new).singles ≡ (L.meter source.old).singles }
    ensures keeps { L.forest source.new ≡ L.forest source.old }
    ensures was_clean { L.is_clean source.new → L.is_clean source.old }
{
    let Some(last) = node.pre.checked_add(root.size) else {
        return Err(Fault::Want(Want::Store));
    };
    let depth = append_row(text, limit, 0, root.level, &LentRow::new(root))?;
    let first = node.pre as usize + 1;
    append_nodes(
        alloc, source, text, limit, depth, root.level, node.tree, first, last,
    )
}

/// Writes an atom.
fn append_atom(text: &mut String, limit: usize, atom: &Atom) -> Result<(), Fault>
    ensures { Appends limit (print_atomic (atomic_of atom.now)) result text.old text.new }
{
    xq_atoms::print(atom, text)?;
    if text.len() > limit {
        return Err(Fault::Code(Code::ProfReply));
    }
    Ok(())
}

/// Writes an item.
fn append_item<L: RowLender>(
    alloc: Global,
    source: &mut L,
    text: &mut String,
    limit: usize,
    item: &Item,
) -> Result<(), Fault>
    requires { length (string_bytes text.old) ≤ limit }
    ensures appends { L.is_clean source.new
        → Appends limit (print_item (L.forest source.old)
        (item_at (L.forest source.old) (item_view item.now))) result text.old text.new }
    ensures within { OnOk result (length (string_bytes text.new) ≤ limit) }
    ensures reads { L.is_clean source.new → ReadsItem (L.forest source.old)
        (item_at (L.forest source.old) (item_view item.now))
        (L.meter source.old) (L.meter source.new) }
    ensures keeps { L.forest source.new ≡ L.forest source.old }
    ensures was_clean { L.is_clean source.new → L.is_clean source.old }
{
    match item {
        Item::Atom(atom) => append_atom(text, limit, atom),
        Item::Node(node) => {
            let root = row_of_node(alloc, source, *node)?;
            append_node(alloc, source, text, limit, *node, &root)
        }
    }
}

/// Writes the items, each after a comma.
fn append_others<L: RowLender>(
    alloc: Global,
    source: &mut L,
    text: &mut String,
    limit: usize,
    items: &[Item],
) -> Result<(), Fault>
    requires { length (string_bytes text.old) ≤ limit }
    ensures appends { L.is_clean source.new
        → Appends limit (each_after_comma (L.forest source.old)
        (items_at (L.forest source.old) (map item_view items.now))) result text.old text.new }
    ensures within { OnOk result (length (string_bytes text.new) ≤ limit) }
    ensures reads { L.is_clean source.new → ReadsItems (L.forest source.old)
        (items_at (L.forest source.old) (map item_view items.now))
        (L.meter source.old) (L.meter source.new) }
    ensures keeps { L.forest source.new ≡ L.forest source.old }
    ensures was_clean { L.is_clean source.new → L.is_clean source.old }
{
    for item in items {
        append(text, limit, ", ")?;
        append_item(alloc, source, text, limit, item)?;
    }
    Ok(())
}

/// The text of a result: its items as expressions that give them, joined by a comma and a space;
/// `()` where there are none. It is refused as `prof:REPLY` where it is over 16,777,216
/// bytes, as soon as it is.
///
/// A node is printed as the constructor expressions that make it and all below it (XQuery 3.1,
/// section 3.9.3). What is promised of the answer holds where the source is clean as the call ends.
///
/// Whatever the outcome, it reads at most the rows below each item by ranges, each row once for
/// each item that it is below, and the row of each item that is a node singly.
pub fn print_items<L: RowLender>(
    alloc: Global,
    source: &mut L,
    items: &[Item],
) -> Result<String, Fault>
    ensures gives { L.is_clean source.new → GivesUnlessWanting string_bytes
        (within_reply (printed_items (L.forest source.old)
        (items_at (L.forest source.old) (map item_view items.now)))) result }
    ensures short { IfOk result (λ text. length (string_bytes text) ≤ longest_text) }
    ensures reads { L.is_clean source.new → ReadsItems (L.forest source.old)
        (items_at (L.forest source.old) (map item_view items.now))
        (L.meter source.old) (L.meter source.new) }
    ensures keeps { L.forest source.new ≡ L.forest source.old }
    ensures was_clean { L.is_clean source.new → L.is_clean source.old }
{
    let Some((first, others)) = items.split_first() else {
        return Ok(String::from_str(alloc, "()")?);
    };
    let mut text = String::new(alloc);
    append_item(alloc, source, &mut text, MAX_REPLY, first)?;
    append_others(alloc, source, &mut text, MAX_REPLY, others)?;
    Ok(text)
}
