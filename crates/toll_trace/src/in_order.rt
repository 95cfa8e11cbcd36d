//! Lists in order, without repeats.
ghost use Rattle.toll_trace.specs.InOrder.{IsInOrder};

/// Sorts the items, and keeps one of those that compare equal. It takes no memory.
pub fn put_in_order<T: Ord + Copy>(items: &mut Vec<T>)
    ensures { IsInOrder T.cmp items.old.items items.new.items }
{
    items.sort_unstable();
    items.dedup();
}
