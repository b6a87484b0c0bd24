ghost use Rattle.std.specs.Prelude.{◌≡◌, IfOk, false, length, slice_index_or};
ghost use Rattle.rr_routes.specs.Reachability.Places.{AreMarkedItems, marked_of};

use std::alloc::{AllocError, Global};

/// The items that have a mark, in their order. The marks are in the order of the items; an item past their end has
/// none. Only memory can fail.
pub fn marked_items<T: Copy>(
    alloc: Global,
    items: &[T],
    marks: &[bool],
) -> Result<Vec<T>, AllocError>
    ensures exact { IfOk result (λ marked. marked.items ≡ marked_of items.now marks.now) }
    ensures members { IfOk result (λ marked. AreMarkedItems items.now marks.now (length items.now) marked.items) }
{
    let mut marked = Vec::with_capacity(alloc, items.len())?;
    for (place, item) in items.iter().enumerate() {
        if !is_marked(marks, place) {
            continue;
        }
        marked.push(*item)?;
    }
    Ok(marked)
}

/// Whether the place has a mark. A place past the end of the marks has none.
pub fn is_marked(marks: &[bool], place: usize) -> bool
    ensures { result ≡ slice_index_or marks.now place false }
{
    match marks.get(place) {
        Some(mark) => *mark,
        None => false,
    }
}
