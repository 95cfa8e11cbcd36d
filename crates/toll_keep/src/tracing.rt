//! Traces over remembered graphs, or over graphs of slices that are read.
ghost use Rattle.std.specs.Prelude.{◌≡◌, [], ◌∷◌, ◌++◌, List, Contains, map, IfOk, OnErr, OnOk};
ghost use Rattle.std.specs.List.{list_any};
ghost use Rattle.toll_base.specs.Bytes.{Bytes, same_bytes};
ghost use Rattle.toll_keep.specs.Content.{Content};
ghost use Rattle.toll_keep.specs.CallEffects.{IsReading};
ghost use Rattle.toll_keep.specs.Graphs.{AreGraphsFor, AreGraphsOf, HasGraph, HaveGraphs, IsKnownGraph, graphs_among};
ghost use Rattle.toll_keep.specs.HeldFor.{AreAmong, KeepsHeld, KeepsOneMore};
ghost use Rattle.toll_keep.specs.Holding.{GivesTrace};
ghost use Rattle.toll_keep.specs.Meaning.{OverContent, meaning_for};
ghost use Rattle.toll_keep.specs.Reads.{HaveRead, IsContentKept, ReadsOneMore};
ghost use Rattle.toll_keep.specs.Remembered.{IfFor, IfOf, IsNothing, IsCacheFor, IsCacheOf, OnlyKnownFor, OnlyKnownHaveRows};

use crate::cache::Cache;
use crate::cached_reading::read_rows;
use crate::keep::Keep;
use crate::keep_fault::KeepFault;
use crate::known_graph::KnownGraph;
use crate::remembered::remembered;
use std::alloc::{AllocError, Global};
use toll_base::{LotId, Name, Slice};
use toll_trace::{Graph, Step, Way, trace_among};

/// How many graphs stay remembered. The graph of an owner with the most movements allowed takes a megabyte.
const MOST_GRAPHS: usize = 64;

/// The trace from the lot over the edges of these owners' batches. Each owner's graph is remembered. It is
/// made of the remembered slice, or of a slice that is read and not remembered. The owners are remembered. It
/// fails if a call of the keep does, or with [`KeepFault::Memory`] if memory runs out.
pub fn read_trace<K: Keep>(
    alloc: Global,
    keep: &mut K,
    cache: &mut Cache,
    owners: &[Name],
    from: &LotId,
    way: Way,
) -> Result<Vec<Step>, KeepFault>
    ensures reading { (¬ (IsNothing cache.old) → HaveRead K.meaning keep.old keep.old) → IsReading K.meaning keep.old keep.new result }
    ensures reads { OverContent K.meaning keep.old keep.new (λ c. IsCacheOf c cache.old → OnlyKnownHaveRows c → GivesTrace c owners.now from.now way result) }
    ensures own { OverContent K.meaning keep.old keep.new (λ c. IsCacheOf c cache.old → OnlyKnownHaveRows c → IsCacheOf c cache.new) }
    ensures alone { (os : List Bytes) → AreAmong owners.now os
        → (¬ (IsNothing cache.old) → HaveRead (meaning_for K.meaning K.part os) keep.old keep.old)
        → IsReading (meaning_for K.meaning K.part os) keep.old keep.new result }
    ensures others { (os : List Bytes) → (¬ (IsNothing cache.old) → HaveRead (meaning_for K.meaning K.part os) keep.old keep.old)
        → KeepsHeld (meaning_for K.meaning K.part os) keep.old keep.new result }
    ensures found { (os : List Bytes) → AreAmong owners.now os → OverContent (meaning_for K.meaning K.part os) keep.old keep.new
        (λ c. IsCacheFor os c cache.old → OnlyKnownFor os c → GivesTrace c owners.now from.now way result) }
    ensures apart { (os : List Bytes) → OverContent (meaning_for K.meaning K.part os) keep.old keep.new
        (λ c. IsCacheFor os c cache.old → OnlyKnownFor os c → IsCacheFor os c cache.new) }
{
    // So the keep was asked at least once: now, or when it gave the owners that are remembered.
    match read_rows(alloc, keep, &mut cache.owners) {
        Ok(_owners) => trace_read(
            alloc,
            keep,
            &cache.slices,
            &mut cache.graphs,
            owners,
            from,
            way,
        ),
        Err(fault) => Err(fault),
    }
}

// The same, with the remembered slices.
fn trace_read<K: Keep>(
    alloc: Global,
    keep: &mut K,
    slices: &[Slice],
    graphs: &mut Vec<KnownGraph>,
    owners: &[Name],
    from: &LotId,
    way: Way,
) -> Result<Vec<Step>, KeepFault>
    ensures reads { (first : K) → HaveRead K.meaning first keep.old → IsReading K.meaning first keep.new result }
    ensures kept { IsContentKept K.meaning keep.old keep.new }
    ensures own { OverContent K.meaning keep.old keep.new (λ c. IfOf c slices.now (AreGraphsOf c graphs.old.items → AreGraphsOf c graphs.new.items)) }
    ensures reported { OverContent K.meaning keep.old keep.new (λ c. IfOf c slices.now (AreGraphsOf c graphs.old.items
        → GivesTrace c owners.now from.now way result)) }
    ensures alone { (os : List Bytes) → AreAmong owners.now os → ReadsOneMore (meaning_for K.meaning K.part os) keep.old keep.new result }
    ensures others { (os : List Bytes) → KeepsOneMore (meaning_for K.meaning K.part os) keep.old keep.new result }
    ensures stays { (os : List Bytes) → IsContentKept (meaning_for K.meaning K.part os) keep.old keep.new }
    ensures apart { (os : List Bytes) → OverContent (meaning_for K.meaning K.part os) keep.old keep.new
        (λ c. IfFor os c slices.now (AreGraphsFor os c graphs.old.items → AreGraphsFor os c graphs.new.items)) }
    ensures found { (os : List Bytes) → AreAmong owners.now os → OverContent (meaning_for K.meaning K.part os) keep.old keep.new
        (λ c. IfFor os c slices.now (AreGraphsFor os c graphs.old.items → GivesTrace c owners.now from.now way result)) }
{
    read_graphs(alloc, keep, slices, graphs, owners)?;
    let reported = trace_known(alloc, graphs, owners, from, way);
    graphs.truncate(MOST_GRAPHS);
    Ok(reported?)
}

// The trace over these owners' graphs.
fn trace_known(
    alloc: Global,
    graphs: &[KnownGraph],
    owners: &[Name],
    from: &LotId,
    way: Way,
) -> Result<Vec<Step>, AllocError>
    ensures all { (c : Content) → AreGraphsOf c graphs.now → HaveGraphs graphs.now owners.now → GivesTrace c owners.now from.now way result }
    ensures alone { (c : Content) → AreGraphsFor owners.now c graphs.now → HaveGraphs graphs.now owners.now → GivesTrace c owners.now from.now way result }
{
    let chosen = chosen(alloc, graphs, owners)?;
    trace_among(alloc, &chosen, from, way)
}

// These owners' graphs.
fn chosen<'a>(
    alloc: Global,
    graphs: &'a [KnownGraph],
    owners: &[Name],
) -> Result<Vec<&'a Graph>, AllocError>
    ensures { IfOk result (λ chosen. map (λ graph. graph.now) chosen.items ≡ graphs_among graphs.now owners.now) }
{
    let mut chosen = Vec::new(alloc);
    for known in graphs {
        if is_among(owners, &known.owner) {
            chosen.push(&known.graph)?;
        }
    }
    Ok(chosen)
}

fn is_among(owners: &[Name], owner: &Name) -> bool
    ensures { result ≡ list_any (same_bytes owner.now) owners.now }
{
    owners.iter().any(|other| *owner == *other)
}

// ---- graphs that aren't remembered yet

// Adds the missing graphs of these owners.
fn read_graphs<K: Keep>(
    alloc: Global,
    keep: &mut K,
    slices: &[Slice],
    graphs: &mut Vec<KnownGraph>,
    owners: &[Name],
) -> Result<(), KeepFault>
    ensures reads { (first : K) → HaveRead K.meaning first keep.old → IsReading K.meaning first keep.new result }
    ensures kept { IsContentKept K.meaning keep.old keep.new }
    ensures own { OverContent K.meaning keep.old keep.new (λ c. IfOf c slices.now (AreGraphsOf c graphs.old.items → AreGraphsOf c graphs.new.items)) }
    ensures there { OnOk result (HaveGraphs graphs.new.items owners.now) }
    ensures alone { (os : List Bytes) → AreAmong owners.now os → ReadsOneMore (meaning_for K.meaning K.part os) keep.old keep.new result }
    ensures others { (os : List Bytes) → KeepsOneMore (meaning_for K.meaning K.part os) keep.old keep.new result }
    ensures stays { (os : List Bytes) → IsContentKept (meaning_for K.meaning K.part os) keep.old keep.new }
    ensures apart { (os : List Bytes) → OverContent (meaning_for K.meaning K.part os) keep.old keep.new
        (λ c. IfFor os c slices.now (AreGraphsFor os c graphs.old.items → AreGraphsFor os c graphs.new.items)) }
{
    for owner in owners {
        read_graph(alloc, keep, slices, graphs, owner)?;
    }
    Ok(())
}

// Adds the graph of the owner, if it is missing.
fn read_graph<K: Keep>(
    alloc: Global,
    keep: &mut K,
    slices: &[Slice],
    graphs: &mut Vec<KnownGraph>,
    owner: &Name,
) -> Result<(), KeepFault>
    ensures reads { (first : K) → HaveRead K.meaning first keep.old → IsReading K.meaning first keep.new result }
    ensures kept { IsContentKept K.meaning keep.old keep.new }
    ensures own { OverContent K.meaning keep.old keep.new (λ c. IfOf c slices.now (AreGraphsOf c graphs.old.items → AreGraphsOf c graphs.new.items)) }
    ensures stay { OnOk result ((o : Bytes) → HasGraph graphs.old.items o → HasGraph graphs.new.items o) }
    ensures there { OnOk result (HasGraph graphs.new.items owner.now) }
    ensures alone { (os : List Bytes) → Contains os owner.now → ReadsOneMore (meaning_for K.meaning K.part os) keep.old keep.new result }
    ensures others { (os : List Bytes) → KeepsOneMore (meaning_for K.meaning K.part os) keep.old keep.new result }
    ensures stays { (os : List Bytes) → IsContentKept (meaning_for K.meaning K.part os) keep.old keep.new }
    ensures apart { (os : List Bytes) → OverContent (meaning_for K.meaning K.part os) keep.old keep.new
        (λ c. IfFor os c slices.now (AreGraphsFor os c graphs.old.items → AreGraphsFor os c graphs.new.items)) }
{
    if is_known(graphs, owner) {
        return Ok(());
    }
    let known = own_graph(alloc, keep, slices, owner)?;
    Ok(add(graphs, known)?)
}

fn add(graphs: &mut Vec<KnownGraph>, known: KnownGraph) -> Result<(), AllocError>
    ensures added { OnOk result (graphs.new.items ≡ graphs.old.items ++ known ∷ []) }
    ensures none { OnErr result (graphs.new.items ≡ graphs.old.items) }
{
    graphs.push(known)?;
    Ok(())
}

fn is_known(graphs: &[KnownGraph], owner: &Name) -> bool
    ensures { result ≡ list_any (λ known. same_bytes known.owner owner.now) graphs.now }
{
    graphs.iter().any(|known| known.owner == *owner)
}

// The graph of the owner.
fn own_graph<K: Keep>(
    alloc: Global,
    keep: &mut K,
    slices: &[Slice],
    owner: &Name,
) -> Result<KnownGraph, KeepFault>
    ensures reads { (first : K) → HaveRead K.meaning first keep.old → IsReading K.meaning first keep.new result }
    ensures kept { IsContentKept K.meaning keep.old keep.new }
    ensures owner { IfOk result (λ known. known.owner ≡ owner.now) }
    ensures reported { OverContent K.meaning keep.old keep.new (λ c. IfOf c slices.now (IfOk result (IsKnownGraph c))) }
    ensures alone { (os : List Bytes) → Contains os owner.now → ReadsOneMore (meaning_for K.meaning K.part os) keep.old keep.new result }
    ensures found { (os : List Bytes) → Contains os owner.now → OverContent (meaning_for K.meaning K.part os) keep.old keep.new
        (λ c. IfFor os c slices.now (IfOk result (IsKnownGraph c))) }
    ensures others { (os : List Bytes) → KeepsOneMore (meaning_for K.meaning K.part os) keep.old keep.new result }
    ensures stays { (os : List Bytes) → IsContentKept (meaning_for K.meaning K.part os) keep.old keep.new }
{
    match remembered(slices, owner) {
        Some(slice) => Ok(KnownGraph::of(alloc, owner, slice)?),
        None => graph_once(alloc, keep, owner),
    }
}

// The same, from a slice that is read and not remembered.
fn graph_once<K: Keep>(alloc: Global, keep: &mut K, owner: &Name) -> Result<KnownGraph, KeepFault>
    ensures reading { IsReading K.meaning keep.old keep.new result }
    ensures owner { IfOk result (λ known. known.owner ≡ owner.now) }
    ensures reads { OverContent K.meaning keep.old keep.new (λ c. OnlyKnownHaveRows c → IfOk result (IsKnownGraph c)) }
    ensures alone { (os : List Bytes) → Contains os owner.now → IsReading (meaning_for K.meaning K.part os) keep.old keep.new result }
    ensures found { (os : List Bytes) → Contains os owner.now → OverContent (meaning_for K.meaning K.part os) keep.old keep.new
        (λ c. OnlyKnownFor os c → IfOk result (IsKnownGraph c)) }
    ensures others { (os : List Bytes) → KeepsHeld (meaning_for K.meaning K.part os) keep.old keep.new result }
{
    match keep.slice(alloc, owner)? {
        Some(slice) => Ok(graph_in(alloc, owner, slice)?),
        None => Ok(graph_in(alloc, owner, Slice::new(alloc, *owner))?),
    }
}

fn graph_in(alloc: Global, owner: &Name, read: Slice) -> Result<KnownGraph, AllocError>
    ensures owner { IfOk result (λ known. known.owner ≡ owner.now) }
    ensures reported { (c : Content) → c.rows owner.now ≡ read → IfOk result (IsKnownGraph c) }
{
    KnownGraph::of(alloc, owner, &read)
}
