ghost use Rattle.std.specs.Prelude.{◌≡◌, [], IfOk};
ghost use Rattle.rt_sql.specs.Rules.{is_grouped, is_aggregate, has_aggregate, may_stand, ungrouped, repeated, same_aggregate, same_item, is_selected, is_group, stray, first_byte, first_of, breach};

use rt_grammar::{GroupAt, ItemAt, KeyAt, Parts};
use rt_model::{Aggregate, ColumnAt, Item};
use std::alloc::{AllocError, Global};
use std::collections::BTreeSet;

/// The first byte of the first item, name or key that breaks a rule of syntax beyond the grammar.
/// Fails only where memory is refused.
pub(crate) fn breach(alloc: Global, parts: &Parts) -> Result<Option<u64>, AllocError>
    ensures { IfOk result (λ byte. byte ≡ breach parts.now) }
{
    let items = parts.items.as_slice();
    let groups = parts.groups.as_slice();
    if !has_aggregate(items) {
        return Ok(first_byte(items));
    }
    let again = repeated(alloc, groups)?;
    Ok(first_of(
        ungrouped(groups, items),
        first_of(again, stray(items, groups, parts.order.as_slice())),
    ))
}

fn first_of(byte: Option<u64>, later: Option<u64>) -> Option<u64>
    ensures { result ≡ first_of byte later }
{
    match byte {
        Some(byte) => Some(byte),
        None => later,
    }
}

fn first_byte(items: &[ItemAt]) -> Option<u64>
    ensures { result ≡ first_byte items.now }
{
    match items {
        [] => None,
        [found, ..] => Some(found.byte),
    }
}

fn has_aggregate(items: &[ItemAt]) -> bool
    ensures { result ≡ has_aggregate items.now }
{
    for found in items {
        if is_aggregate(&found.item) {
            return true;
        }
    }
    false
}

fn is_aggregate(item: &Item) -> bool
    ensures { result ≡ is_aggregate item.now }
{
    match item {
        Item::Column(_column) => false,
        Item::Aggregate(_aggregate) => true,
    }
}

fn is_grouped(column: &ColumnAt, groups: &[GroupAt]) -> bool
    ensures { result ≡ is_grouped column.now.name groups.now }
{
    for group in groups {
        if column.name.as_str() == group.column.name.as_str() {
            return true;
        }
    }
    false
}

// The first name among the items that doesn't stand in GROUP BY.
fn ungrouped(groups: &[GroupAt], items: &[ItemAt]) -> Option<u64>
    ensures { result ≡ ungrouped groups.now items.now }
{
    for found in items {
        if !may_stand(groups, &found.item) {
            return Some(found.byte);
        }
    }
    None
}

fn may_stand(groups: &[GroupAt], item: &Item) -> bool
    ensures { result ≡ may_stand groups.now item.now }
{
    match item {
        Item::Column(column) => is_grouped(column, groups),
        Item::Aggregate(_aggregate) => true,
    }
}

// The first name that has come before in GROUP BY.
fn repeated(alloc: Global, groups: &[GroupAt]) -> Result<Option<u64>, AllocError>
    ensures { IfOk result (λ byte. byte ≡ repeated [] groups.now) }
{
    let mut names = BTreeSet::new(alloc);
    for group in groups {
        if !names.insert(group.column.name.as_str())? {
            return Ok(Some(group.byte));
        }
    }
    Ok(None)
}

// The first key that neither stands among the items nor is a name of GROUP BY.
fn stray(items: &[ItemAt], groups: &[GroupAt], keys: &[KeyAt]) -> Option<u64>
    ensures { result ≡ stray items.now groups.now keys.now }
{
    for found in keys {
        if !is_selected(&found.key.item, items) && !is_group(&found.key.item, groups) {
            return Some(found.byte);
        }
    }
    None
}

fn is_selected(item: &Item, items: &[ItemAt]) -> bool
    ensures { result ≡ is_selected item.now items.now }
{
    for found in items {
        if same_item(item, &found.item) {
            return true;
        }
    }
    false
}

fn is_group(item: &Item, groups: &[GroupAt]) -> bool
    ensures { result ≡ is_group item.now groups.now }
{
    match item {
        Item::Column(column) => is_grouped(column, groups),
        Item::Aggregate(_aggregate) => false,
    }
}

fn same_item(a: &Item, b: &Item) -> bool
    ensures { result ≡ same_item a.now b.now }
{
    match (a, b) {
        (Item::Column(a), Item::Column(b)) => a.name.as_str() == b.name.as_str(),
        (Item::Aggregate(a), Item::Aggregate(b)) => same_aggregate(a, b),
        _ => false,
    }
}

fn same_aggregate(a: &Aggregate, b: &Aggregate) -> bool
    ensures { result ≡ same_aggregate a.now b.now }
{
    match (a, b) {
        (Aggregate::Count, Aggregate::Count) => true,
        (Aggregate::Sum(a), Aggregate::Sum(b)) => a.name.as_str() == b.name.as_str(),
        (Aggregate::Min(a), Aggregate::Min(b)) => a.name.as_str() == b.name.as_str(),
        (Aggregate::Max(a), Aggregate::Max(b)) => a.name.as_str() == b.name.as_str(),
        _ => false,
    }
}
