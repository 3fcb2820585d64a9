//! The items of lists that are marked.
ghost use Rattle.std.specs.Prelude.{◌≡◌, false, slice_index_or, IfOk, OnOk};
ghost use Rattle.rt_agg.specs.Picking.{kept, with_marked};

use rt_lists::{Copied, Items};
use std::alloc::{AllocError, Global};

/// The items of a list that are marked; none behind the marks.
#[tactic(auto, using(crate::proofs::Kept::kept_next, crate::proofs::Kept::kept_last))]
pub(crate) fn keep<T: Copy>(
    alloc: Global,
    marks: &[bool],
    list: &[T],
) -> Result<Items<T>, AllocError>
    ensures { IfOk result (λ items. items ≡ kept marks.now list.now) }
{
    let mut items = Items::new(alloc);
    for (i, item) in list.iter().enumerate() {
        push_marked(&mut items, is_marked(marks, i), *item)?;
    }
    Ok(items)
}

fn push_marked<T: Copy>(items: &mut Items<T>, mark: bool, item: T) -> Result<(), AllocError>
    ensures { OnOk result (items.new ≡ with_marked mark item items.old) }
{
    if mark {
        items.push(item)?;
    }
    Ok(())
}

/// Copies of the items of a list that are marked; none behind the marks.
#[tactic(auto, using(crate::proofs::Kept::kept_next, crate::proofs::Kept::kept_last))]
pub(crate) fn keep_copies<T: Copied>(
    alloc: Global,
    marks: &[bool],
    list: &[T],
) -> Result<Items<T>, AllocError>
    ensures { IfOk result (λ items. items ≡ kept marks.now list.now) }
{
    let mut items = Items::new(alloc);
    for (i, item) in list.iter().enumerate() {
        push_copy(alloc, &mut items, is_marked(marks, i), item)?;
    }
    Ok(items)
}

fn push_copy<T: Copied>(
    alloc: Global,
    items: &mut Items<T>,
    mark: bool,
    item: &T,
) -> Result<(), AllocError>
    ensures { OnOk result (items.new ≡ with_marked mark item.now items.old) }
{
    if mark {
        items.push(item.copied(alloc)?)?;
    }
    Ok(())
}

fn is_marked(marks: &[bool], i: usize) -> bool
    ensures { result ≡ slice_index_or marks.now i false }
{
    match marks.get(i) {
        None => false,
        Some(mark) => *mark,
    }
}
