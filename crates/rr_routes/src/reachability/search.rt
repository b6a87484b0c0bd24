ghost use Rattle.std.specs.Prelude.{◌≡◌, ℕ, ◌<◌, ◌↔◌, IfOk, OnOk, length};
ghost use Rattle.rr_routes.specs.Reachability.Reach.{IsReached, IsReachedWithin, AreMarked, IsMarked};

use crate::reachability::graph::Followers;
use crate::reachability::marking::is_marked;
use std::alloc::{AllocError, Global};

/// Marks the states of a graph that are reached from some states: these themselves, and each state
/// that follows a reached one. `graph` has for each state the ones that may follow it. A number that
/// is no state of the graph has no mark, and nothing follows it.
///
/// Only memory can fail. The search takes as much time as the graph has states and followers.
pub fn reached(
    alloc: Global,
    graph: &[Followers],
    starts: &[usize],
) -> Result<Vec<bool>, AllocError>
    ensures states { IfOk result (λ marks. length marks.items ≡ length graph.now) }
    ensures reached { IfOk result (λ marks. (state : ℕ) → state < length graph.now → IsMarked marks.items state ↔ IsReached graph.now starts.now state) }
{
    let allowed = vec![in alloc; true; graph.len()]?;
    let marks = reached_within(alloc, graph, starts, &allowed)?;
    Ok(marks)
}

/// The same over the allowed states alone, those with a mark among `allowed`: what is reached only by way of another
/// state isn't marked, nor is that state.
pub fn reached_within(
    alloc: Global,
    graph: &[Followers],
    starts: &[usize],
    allowed: &[bool],
) -> Result<Vec<bool>, AllocError>
    ensures states { IfOk result (λ marks. length marks.items ≡ length graph.now) }
    ensures reached { IfOk result (λ marks. (state : ℕ) → state < length graph.now → IsMarked marks.items state ↔ IsReachedWithin graph.now allowed.now starts.now state) }
{
    let mut marks = vec![in alloc; false; graph.len()]?;
    let mut pending = Vec::with_capacity(alloc, graph.len())?;
    mark(starts, allowed, &mut marks, &mut pending)?;
    while let Some(state) = pending.pop() {
        mark(graph[state].as_slice(), allowed, &mut marks, &mut pending)?;
    }
    Ok(marks)
}

// Marks those of these states that are allowed, and notes as pending which weren't marked before.
fn mark(
    states: &[usize],
    allowed: &[bool],
    marks: &mut Vec<bool>,
    pending: &mut Vec<usize>,
) -> Result<(), AllocError>
    ensures { OnOk result (AreMarked states.now allowed.now marks.old.items pending.old.items marks.new.items pending.new.items) }
{
    for state in states {
        if *state >= marks.len() {
            continue;
        }
        if marks[*state] {
            continue;
        }
        if !is_marked(allowed, *state) {
            continue;
        }
        marks[*state] = true;
        pending.push(*state)?;
    }
    Ok(())
}
