//! Tests of `toll_trace`: edges that actuals draw, and traces over edges.

mod edges;
mod traces;
