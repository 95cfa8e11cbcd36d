//! Laws of traces.
ghost use Rattle.toll_trace.specs.Laws.{TracesAreUnique};

/// Edges, a lot and a way have one trace at most: two lists that are both the trace are equal. So
/// [`crate::plain_trace`] and [`crate::Graph::trace`] give the same answer.
pub fn traces_are_unique()
    ensures { TracesAreUnique }
{}
