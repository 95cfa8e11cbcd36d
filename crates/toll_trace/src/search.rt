//! The search for a trace: level by level, each joint walked once.
ghost use Rattle.std.specs.Prelude.{◌≡◌, ℕ, ◌+◌, ◌^◌, ◌<◌, ◌++◌, [], ◌∷◌, not, false, filter, map, length, slice_index, IfOk, OnOk, Contains};
ghost use Rattle.toll_base.specs.Lots.{lot_cmp};
ghost use Rattle.toll_trace.specs.Common.{IsStrictlySortedBy};
ghost use Rattle.toll_trace.specs.EdgeIndex.{AreWithin};
ghost use Rattle.toll_trace.specs.Numbers.{AreBelow, AreAllNumbers, AreAdded};
ghost use Rattle.toll_trace.specs.Search.{is_found, step_at};
ghost use Rattle.toll_trace.specs.Trace.{IsTrace};
ghost use Rattle.toll_trace.specs.Walk.{AreWalked, AreEntered, AreFaced, AreLedOn, AreLedTo, AreMarked, IsFaced, IsLedOn, IsSound, IsWalked, LeadThrough, all_steps, is_marked};

use crate::edge_index::{EdgeIndex, Span};
use crate::in_order::put_in_order;
use crate::numbers::add_numbers;
use crate::step::Step;
use std::alloc::{AllocError, Global};
use toll_base::LotId;

/// A graph's joints for one way, and how far a search has walked them. Lots are numbers: their places
/// in the graph's list.
#[derive(Drop)]
pub(crate) struct Part<'a> {
    pub(crate) lots: &'a [LotId],
    pub(crate) joints: &'a EdgeIndex,
    /// For each place where a span of the joints may end, the first of the walked joints before it.
    pub(crate) lows: Vec<usize>,
    /// For each lot, whether it is found.
    pub(crate) marks: Vec<bool>,
    /// The lots that are found, and that no step was taken from.
    pub(crate) front: Vec<usize>,
}

impl<'a> Part<'a> {
    /// The joints, none of them walked. The front is this lot, if the graph has it.
    pub(crate) fn of(
        alloc: Global,
        lots: &'a [LotId],
        joints: &'a EdgeIndex,
        from: &LotId,
    ) -> Result<Self, AllocError>
        requires sorted { IsStrictlySortedBy lot_cmp lots.now }
        requires within { AreBelow (length lots.now) joints.now.targets.items }
        ensures lots { IfOk result (λ part. part.lots.now ≡ lots.now) }
        ensures joints { IfOk result (λ part. part.joints.now ≡ joints.now) }
        ensures walked { IfOk result (IsWalked (is_found []) (from.now ∷ [])) }
    {
        let lows = nothing_walked(alloc, joints.targets.len())?;
        let marks = vec![in alloc; false; lots.len()]?;
        let mut front = Vec::new(alloc);
        add_numbers(&mut front, lots, &[*from])?;
        Ok(Part {
            lots,
            joints,
            lows,
            marks,
            front,
        })
    }

    // Takes a step from the front. Adds the lots that it reaches and that aren't found yet.
    fn lead_on(&mut self, alloc: Global, lots: &mut Vec<LotId>) -> Result<(), AllocError>
        requires sound { IsSound self.old }
        requires walked { AreWalked self.old.joints.now.targets.items
            (is_marked self.old.marks.items) self.old.lows.items self.old.front.items }
        ensures { OnOk result (IsLedOn self.old self.new lots.old.items lots.new.items) }
    {
        mark(&mut self.marks, &self.front);
        let numbers = led_on(alloc, &mut self.lows, self.joints, &self.marks, &self.front)?;
        add_lots(lots, self.lots, &numbers)?;
        self.front = numbers;
        Ok(())
    }

    // Sets the front: these lots, where the graph has them.
    fn face(&mut self, lots: &[LotId]) -> Result<(), AllocError>
        requires { IsStrictlySortedBy lot_cmp self.old.lots.now }
        ensures { OnOk result (IsFaced lots.now self.old self.new) }
    {
        self.front.clear();
        add_numbers(&mut self.front, self.lots, lots)
    }
}

/// Every lot that ends a chain of steps through the joints from the lot.
pub(crate) fn search(
    alloc: Global,
    parts: &mut Vec<Part<'_>>,
    from: &LotId,
) -> Result<Vec<Step>, AllocError>
    requires { (part : _) → Contains parts.old.items part
        → IsWalked (is_found []) (from.now ∷ []) part }
    ensures { IfOk result
        (λ trace. IsTrace (LeadThrough (all_steps parts.old.items)) from.now trace.items) }
{
    let mut found = Vec::new(alloc);
    let mut steps = 0;
    let mut front = advance(alloc, parts, &mut found, steps, &[*from])?;
    'levels: while !front.is_empty() {
        steps += 1;
        front = advance(alloc, parts, &mut found, steps, &front)?;
    }
    Ok(found)
}

/// Adds the front to what is found, after so many steps. Returns the lots that one step more reaches
/// from there and that aren't found yet, in order.
fn advance(
    alloc: Global,
    parts: &mut Vec<Part<'_>>,
    found: &mut Vec<Step>,
    steps: u64,
    front: &[LotId],
) -> Result<Vec<LotId>, AllocError>
    requires walked { (part : _) → Contains parts.old.items part
        → IsWalked (is_found found.old.items) front.now part }
    ensures added { OnOk result
        (found.new.items ≡ found.old.items ++ map (step_at steps) front.now) }
    ensures steps { OnOk result (all_steps parts.new.items ≡ all_steps parts.old.items) }
    ensures led { IfOk result
        (λ lots. AreLedTo (is_found found.new.items) front.now parts.new.items lots.items) }
{
    add_steps(found, steps, front)?;
    let mut lots = Vec::new(alloc);
    for part in parts.iter_mut() {
        part.lead_on(alloc, &mut lots)?;
    }
    put_in_order(&mut lots);
    face_all(parts, &lots)?;
    Ok(lots)
}

/// Adds steps to these lots.
fn add_steps(found: &mut Vec<Step>, steps: u64, lots: &[LotId]) -> Result<(), AllocError>
    ensures { OnOk result (found.new.items ≡ found.old.items ++ map (step_at steps) lots.now) }
{
    for lot in lots {
        found.push(Step { steps, lot: *lot })?;
    }
    Ok(())
}

/// Sets the front of each part: these lots, where its graph has them. A part that is alone has that
/// front, since nothing else led to the lots.
fn face_all(parts: &mut Vec<Part<'_>>, lots: &[LotId]) -> Result<(), AllocError>
    requires sorted { (part : _) → Contains parts.old.items part
        → IsStrictlySortedBy lot_cmp part.lots.now }
    requires alone { length parts.old.items ≡ 1 → (part : _) → Contains parts.old.items part
        → AreAllNumbers part.lots.now lots.now part.front.items }
    ensures steps { OnOk result (all_steps parts.new.items ≡ all_steps parts.old.items) }
    ensures faced { OnOk result (AreFaced lots.now parts.old.items parts.new.items) }
{
    if parts.len() == 1 {
        return Ok(());
    }
    for part in parts.iter_mut() {
        part.face(lots)?;
    }
    Ok(())
}

// ---- one part

/// For each place where a span of so many joints may end, the first of the walked joints before that
/// place: none yet.
fn nothing_walked(alloc: Global, joint_count: usize) -> Result<Vec<usize>, AllocError>
    requires { joint_count + 1 < 2 ^ 64 }
    ensures length { IfOk result (λ lows. length lows.items ≡ joint_count + 1) }
    ensures lows { IfOk result
        (λ lows. (end : ℕ) → end < joint_count + 1 → slice_index lows.items end ≡ end) }
{
    let mut lows = Vec::new(alloc);
    for end in 0..joint_count + 1 {
        lows.push(end)?;
    }
    Ok(lows)
}

/// Marks these lots.
fn mark(marks: &mut [bool], numbers: &[usize])
    requires { AreBelow (length marks.old) numbers.now }
    ensures { AreMarked marks.old numbers.now marks.new }
{
    for number in numbers {
        marks[*number] = true;
    }
}

/// The lots that one step reaches from the front and that aren't marked, in order.
fn led_on(
    alloc: Global,
    lows: &mut [usize],
    joints: &EdgeIndex,
    marks: &[bool],
    front: &[usize],
) -> Result<Vec<usize>, AllocError>
    requires within { AreBelow (length marks.now) joints.now.targets.items }
    requires sized { length lows.old ≡ length joints.now.targets.items + 1 }
    requires walked { AreWalked joints.now.targets.items (is_marked marks.now) lows.old [] }
    ensures sized { OnOk result (length lows.new ≡ length lows.old) }
    ensures led { IfOk result (λ numbers. AreLedOn (is_marked marks.now) front.now joints.now.sources joints.now.targets.items lows.new numbers.items) }
{
    let mut numbers = Vec::new(alloc);
    for number in front {
        enter(
            &mut numbers,
            lows,
            &joints.targets,
            marks,
            joints.sources.at(number),
        )?;
    }
    put_in_order(&mut numbers);
    Ok(numbers)
}

/// Adds the lots that leave the entered spans and that aren't marked. It skips the joints before an
/// end that were walked: every lot that leaves there is marked, or among the numbers.
fn enter(
    numbers: &mut Vec<usize>,
    lows: &mut [usize],
    targets: &[usize],
    marks: &[bool],
    sources: &[(usize, Span)],
) -> Result<(), AllocError>
    requires numbers { AreBelow (length marks.now) targets.now }
    requires within { AreWithin targets.now sources.now }
    requires sized { length lows.old ≡ length targets.now + 1 }
    requires walked { AreWalked targets.now (is_marked marks.now) lows.old numbers.old.items }
    ensures { OnOk result (AreEntered targets.now
        (is_marked marks.now) sources.now lows.new numbers.old.items numbers.new.items) }
{
    for (_, span) in sources {
        let low = lows[span.end];
        if span.start < low {
            add_new(numbers, marks, &targets[span.start..low])?;
            lows[span.end] = span.start;
        }
    }
    Ok(())
}

/// Adds those of the lots that aren't marked.
fn add_new(numbers: &mut Vec<usize>, marks: &[bool], leaving: &[usize]) -> Result<(), AllocError>
    requires { AreBelow (length marks.now) leaving.now }
    ensures { OnOk result (numbers.new.items
        ≡ numbers.old.items ++ filter (λ number. not (is_marked marks.now number)) leaving.now) }
{
    for number in leaving {
        if !marks[*number] {
            numbers.push(*number)?;
        }
    }
    Ok(())
}

/// Adds the lots that have these numbers among all.
fn add_lots(lots: &mut Vec<LotId>, all: &[LotId], numbers: &[usize]) -> Result<(), AllocError>
    requires { AreBelow (length all.now) numbers.now }
    ensures { OnOk result (AreAdded all.now numbers.now lots.old.items lots.new.items) }
{
    for number in numbers {
        lots.push(all[*number])?;
    }
    Ok(())
}
