//! The keep over SQLite.
ghost use Rattle.std.specs.Prelude.{◌≡◌, ◌≢◌, Err, true, false, None, List, [], ◌∷◌, Contains, IfOk, IfSome, IsTrue, OnErr, OnOk};
ghost use Rattle.sqlite.specs.Held.{state};
ghost use Rattle.sqlite.specs.State.{HasCleanDisk};
ghost use Rattle.toll_base.specs.Bytes.{Bytes};
ghost use Rattle.toll_trace.specs.Edges.{AreEdges, IsEdge};
ghost use Rattle.toll_keep.specs.Content.{AllChangesFit, Content, ContentKeepsRules, content_after, slice_of};
ghost use Rattle.toll_keep.specs.CallEffects.{CallEffect, closes_keep, IsReading, IsSpared};
ghost use Rattle.toll_keep.specs.HeldFor.{AreAmong, KeepsHeld, KeepsOneMore, MakesHeld, PutsOutside, ReadsHeld};
ghost use Rattle.toll_keep.specs.Holding.{DrawsFor, GivesRows, GivesTrace, IsEdgeOfSome, IsHolder};
ghost use Rattle.toll_keep.specs.Meaning.{OverContent, OverLive};
ghost use Rattle.toll_keep.specs.Reads.{IsContentKept, ReadsOneMore};
ghost use Rattle.toll_sql.specs.AskedTexts.{all_text};
ghost use Rattle.toll_sql.specs.Causes.{CountsOneMore};
ghost use Rattle.toll_sql.specs.Asking.{ForIdle, IsProbedAfter, LeavesStore};
ghost use Rattle.toll_sql.specs.EdgeRows.{AreEdgesOf, AreOwnersEdges};
ghost use Rattle.toll_sql.specs.HeldFor.{LearnsOneMore};
ghost use Rattle.toll_sql.specs.HolderRows.{ReportsHolder};
ghost use Rattle.toll_sql.specs.Kinds.{owner_kind, unit_kind};
ghost use Rattle.toll_sql.specs.Shown.{AreReported, IsReportedUnknown, ShowsOwnRows, ShowsSlice, tables_of_owners};

use crate::edges::{read_all_edges, read_edges};
use crate::holding::read_holder;
use crate::listing::{read_owners, read_units};
use crate::queries::find_open;
use crate::slice_reading::{read_rows_of, read_slice};
use crate::store_errors::{LackCount, MemoryLack};
use crate::writing::make_changes;
use sqlite::{Alter, Connection};
use std::alloc::{AllocError, Global};
use toll_base::{Change, Edge, LotId, Name, OwnerRow, Slice, UnitRow};
use toll_keep::{Holder, Keep, KeepFault};
use toll_trace::{Graph, Recorded, Step, Way};

/// The rows of the office in the tables of one SQLite store. It remembers nothing: each call reads
/// what it needs, and each `apply` is one transaction.
///
/// The clauses `shown` and `known` of its reading calls hold whatever rows the tables have: a call that succeeds
/// has read rows of the office alone. By `lack`, Memory is the fault only if this call lacked memory. So of a
/// broken row a call reports Damaged, unless it lacked memory, met a fault of the disk, or was closed before.
/// `trace`, which no program calls on it, has none of these three.
///
/// The clauses `alone` and `others` are about what it holds for some owners, whatever rows its tables have of
/// others. A call for these owners reads exactly their rows. Readings and changes of others leave what it holds
/// for them.
#[derive(Drop)]
pub struct SqlKeep<S: Alter> {
    pub(crate) conn: Connection<S>,
    pub(crate) closed: bool,
    // Whether the store is open isn't known: no call was answered yet, or there was no memory to ask it.
    pub(crate) unsure: bool,
    // How many calls lacked memory.
    pub(crate) lacks: LackCount,
    ghost idle: { conn.in_transaction ≡ false },
    ghost unlimited: { conn.step_limit ≡ None },
    ghost sure: { unsure ≡ false → HasCleanDisk (state S.Store conn) → IsTrue (state S.Store conn).is_open },
}

impl<S: Alter> SqlKeep<S> {
    ghost use Rattle.toll_sql.specs.Meant.{sql_meaning, sql_part};

    // Each call begins with this. A closed keep answers Closed. If it isn't known whether the store is
    // open, the keep asks it.
    fn begin(&mut self) -> Result<(), KeepFault>
        ensures unsure { OnOk result (self.new.unsure ≡ true) }
        ensures reading { IsReading (sql_meaning S.Store) self.old self.new result }
        ensures apart { (os : List Bytes) → IsReading (sql_part S.Store os) self.old self.new result }
        ensures stays { OnOk result (LeavesStore (state S.Store self.old.conn) (state S.Store self.new.conn) result) }
        ensures undamaged { result ≢ Err KeepFault.Damaged }
        ensures lack { result ≡ Err KeepFault.Memory → CountsOneMore self.old.lacks.count self.new.lacks.count }
        ensures same { OnOk result (self.new.lacks.count ≡ self.old.lacks.count) }
    {
        if self.closed {
            return Err(KeepFault::Closed);
        }
        if !self.unsure {
            self.unsure = true;
            return Ok(());
        }
        let mut lack = MemoryLack::none();
        let found = find_open(&mut self.conn, &mut lack);
        self.lacks.add(lack);
        self.closed = match &found {
            Ok(()) | Err(KeepFault::Memory) => false,
            Err(_) => true,
        };
        found
    }

    // Passes the answer on. If it is Disk or Damaged, the keep is closed from now on. After Memory the store
    // may have shut itself: the keep asks it, and if it has, the answer is Disk.
    fn pass_on<X>(&mut self, answer: Result<X, KeepFault>, lack: MemoryLack) -> Result<X, KeepFault>
        requires { HasCleanDisk (state S.Store self.old.conn) → OnOk answer (IsTrue (state S.Store self.old.conn).is_open) }
        ensures same { answer ≢ Err KeepFault.Memory → (result ≡ answer) × (self.new.conn ≡ self.old.conn) }
        ensures requested { answer ≡ Err KeepFault.Memory → IsProbedAfter (state S.Store self.old.conn) (state S.Store self.new.conn) result self.new.unsure }
        ensures closed { self.new.closed ≡ closes_keep result }
        ensures lack { (answer ≡ Err KeepFault.Memory → IsTrue lack.is_noted) → result ≡ Err KeepFault.Memory
            → CountsOneMore self.old.lacks.count self.new.lacks.count }
    {
        let answer = match answer {
            Err(KeepFault::Memory) => return self.probe_after(lack),
            answer => answer,
        };
        self.closed = answer.is_err();
        self.unsure = answer.is_err();
        answer
    }

    // The answer after Memory.
    fn probe_after<X>(&mut self, lack: MemoryLack) -> Result<X, KeepFault>
        ensures requested { IsProbedAfter (state S.Store self.old.conn) (state S.Store self.new.conn) result self.new.unsure }
        ensures closed { self.new.closed ≡ closes_keep result }
        ensures lack { IsTrue lack.is_noted → CountsOneMore self.old.lacks.count self.new.lacks.count }
    {
        self.lacks.add(lack);
        let found = find_open(&mut self.conn, &mut MemoryLack::none());
        self.unsure = found.is_err();
        let fault = match found {
            Ok(()) => KeepFault::Memory,
            Err(fault) => fault,
        };
        self.closed = fault != KeepFault::Memory;
        Err(fault)
    }

    // All rows of the owner, whether it is known or not.
    fn rows_of(&mut self, alloc: Global, owner: &Name) -> Result<Slice, KeepFault>
        ensures reading { IsReading (sql_meaning S.Store) self.old self.new result }
        ensures reads { OverContent (sql_meaning S.Store) self.old self.new (λ c. GivesRows c owner.now result) }
        ensures alone { (os : List Bytes) → Contains os owner.now → ReadsHeld (sql_part S.Store os) self.old self.new result
            (λ c. GivesRows c owner.now result) }
        ensures others { (os : List Bytes) → KeepsHeld (sql_part S.Store os) self.old self.new result }
        ensures lack { result ≡ Err KeepFault.Memory → CountsOneMore self.old.lacks.count self.new.lacks.count }
        ensures shown { ShowsOwnRows tables_of_owners owner.now (state S.Store self.old.conn) (state S.Store self.new.conn) result }
    {
        self.begin()?;
        let mut lack = MemoryLack::none();
        let read = read_rows_of(&mut self.conn, &mut lack, alloc, owner);
        self.pass_on(read, lack)
    }

    // The lots that the batches of these owners consumed and produced.
    fn recorded(&mut self, alloc: Global, owners: &[Name]) -> Result<Recorded, KeepFault>
        ensures reads { ReadsOneMore (sql_meaning S.Store) self.old self.new result }
        ensures kept { IsContentKept (sql_meaning S.Store) self.old self.new }
        ensures reported { OverContent (sql_meaning S.Store) self.old self.new (λ c. IfOk result (DrawsFor c owners.now)) }
        ensures alone { (os : List Bytes) → AreAmong owners.now os → LearnsOneMore (sql_part S.Store os) self.old self.new result
            (λ c. IfOk result (DrawsFor c owners.now)) }
        ensures others { (os : List Bytes) → KeepsOneMore (sql_part S.Store os) self.old self.new result }
    {
        let mut recorded = Recorded::new(alloc);
        for owner in owners {
            let slice = self.rows_of(alloc, owner)?;
            recorded = recorded.with(alloc, &slice)?;
        }
        Ok(recorded)
    }
}

// The trace over the recorded uses.
fn trace_recorded(
    alloc: Global,
    recorded: Recorded,
    from: &LotId,
    way: Way,
) -> Result<Vec<Step>, AllocError>
    ensures { (c : Content) (owners : List Bytes) → DrawsFor c owners recorded → GivesTrace c owners from.now way result }
{
    Graph::of_recorded(alloc, recorded)?.trace(alloc, from, way)
}

impl<S: Alter> Keep for SqlKeep<S> {
    ghost use Rattle.toll_sql.specs.Meant.{sql_meaning, sql_part};

    ghost meaning = { sql_meaning S.Store };

    ghost part = { λ os. record {
      holds = λ k c. (sql_part S.Store os).holds k c;
      leaves = λ k cs. (sql_part S.Store os).leaves k cs;
    } };

    fn slice(&mut self, alloc: Global, owner: &Name) -> Result<Option<Slice>, KeepFault>
        ensures reading { IsReading (sql_meaning S.Store) self.old self.new result }
        ensures reads { OverContent (sql_meaning S.Store) self.old self.new (λ c. IfOk result (λ slice. slice ≡ slice_of c owner.now)) }
        ensures alone { (os : List Bytes) → Contains os owner.now → ReadsHeld (sql_part S.Store os) self.old self.new result
            (λ c. IfOk result (λ slice. slice ≡ slice_of c owner.now)) }
        ensures others { (os : List Bytes) → KeepsHeld (sql_part S.Store os) self.old self.new result }
        ensures named { IfOk result (λ slice. IfSome slice (λ s. s.owner ≡ owner.now)) }
        ensures lack { result ≡ Err KeepFault.Memory → CountsOneMore self.old.lacks.count self.new.lacks.count }
        ensures shown { ShowsSlice owner.now (state S.Store self.old.conn) (state S.Store self.new.conn) result }
        ensures known { ForIdle (state S.Store self.old.conn) (state S.Store self.new.conn)
            (λ db. IfOk result (λ slice. slice ≡ None → IsReportedUnknown db owner.now)) }
    {
        self.begin()?;
        let mut lack = MemoryLack::none();
        let read = read_slice(&mut self.conn, &mut lack, alloc, owner);
        self.pass_on(read, lack)
    }

    fn owners(&mut self, alloc: Global) -> Result<Vec<OwnerRow>, KeepFault>
        ensures reading { IsReading (sql_meaning S.Store) self.old self.new result }
        ensures reads { OverContent (sql_meaning S.Store) self.old self.new (λ c. IfOk result (λ rows. rows.items ≡ c.owners)) }
        ensures alone { (os : List Bytes) → ReadsHeld (sql_part S.Store os) self.old self.new result
            (λ c. IfOk result (λ rows. rows.items ≡ c.owners)) }
        ensures lack { result ≡ Err KeepFault.Memory → CountsOneMore self.old.lacks.count self.new.lacks.count }
        ensures shown { ForIdle (state S.Store self.old.conn) (state S.Store self.new.conn)
            (λ db. IfOk result (λ rows. AreReported owner_kind db rows.items)) }
    {
        self.begin()?;
        let mut lack = MemoryLack::none();
        let read = read_owners(&mut self.conn, &mut lack, alloc);
        self.pass_on(read, lack)
    }

    fn units(&mut self, alloc: Global) -> Result<Vec<UnitRow>, KeepFault>
        ensures reading { IsReading (sql_meaning S.Store) self.old self.new result }
        ensures reads { OverContent (sql_meaning S.Store) self.old self.new (λ c. IfOk result (λ rows. rows.items ≡ c.units)) }
        ensures alone { (os : List Bytes) → ReadsHeld (sql_part S.Store os) self.old self.new result
            (λ c. IfOk result (λ rows. rows.items ≡ c.units)) }
        ensures lack { result ≡ Err KeepFault.Memory → CountsOneMore self.old.lacks.count self.new.lacks.count }
        ensures shown { ForIdle (state S.Store self.old.conn) (state S.Store self.new.conn)
            (λ db. IfOk result (λ rows. AreReported unit_kind db rows.items)) }
    {
        self.begin()?;
        let mut lack = MemoryLack::none();
        let read = read_units(&mut self.conn, &mut lack, alloc);
        self.pass_on(read, lack)
    }

    fn holder(&mut self, _alloc: Global, unit: &Name) -> Result<Option<Holder>, KeepFault>
        ensures reading { IsReading (sql_meaning S.Store) self.old self.new result }
        ensures reads { OverContent (sql_meaning S.Store) self.old self.new (λ c. IfOk result (IsHolder c unit.now)) }
        ensures others { (os : List Bytes) → KeepsHeld (sql_part S.Store os) self.old self.new result }
        ensures lack { result ≡ Err KeepFault.Memory → CountsOneMore self.old.lacks.count self.new.lacks.count }
        ensures shown { ForIdle (state S.Store self.old.conn) (state S.Store self.new.conn) (λ db. ReportsHolder unit.now db.trees result) }
    {
        self.begin()?;
        let mut lack = MemoryLack::none();
        let read = read_holder(&mut self.conn, &mut lack, unit);
        self.pass_on(read, lack)
    }

    fn edges(&mut self, alloc: Global, owner: &Name) -> Result<Vec<Edge>, KeepFault>
        ensures reading { IsReading (sql_meaning S.Store) self.old self.new result }
        ensures reads { OverContent (sql_meaning S.Store) self.old self.new (λ c. IfOk result (λ edges. AreEdges (IsEdge (c.rows owner.now)) edges.items)) }
        ensures others { (os : List Bytes) → KeepsHeld (sql_part S.Store os) self.old self.new result }
        ensures lack { result ≡ Err KeepFault.Memory → CountsOneMore self.old.lacks.count self.new.lacks.count }
        ensures shown { ForIdle (state S.Store self.old.conn) (state S.Store self.new.conn)
            (λ db. IfOk result (λ edges. AreOwnersEdges db owner.now edges.items)) }
    {
        self.begin()?;
        let mut lack = MemoryLack::none();
        let read = read_edges(&mut self.conn, &mut lack, alloc, owner);
        self.pass_on(read, lack)
    }

    fn all_edges(&mut self, alloc: Global) -> Result<Vec<Edge>, KeepFault>
        ensures reading { IsReading (sql_meaning S.Store) self.old self.new result }
        ensures reads { OverContent (sql_meaning S.Store) self.old self.new (λ c. IfOk result (λ edges. AreEdges (IsEdgeOfSome c) edges.items)) }
        ensures others { (os : List Bytes) → KeepsHeld (sql_part S.Store os) self.old self.new result }
        ensures lack { result ≡ Err KeepFault.Memory → CountsOneMore self.old.lacks.count self.new.lacks.count }
        ensures shown { ForIdle (state S.Store self.old.conn) (state S.Store self.new.conn)
            (λ db. IfOk result (λ edges. AreEdgesOf db all_text [] edges.items)) }
    {
        self.begin()?;
        let mut lack = MemoryLack::none();
        let read = read_all_edges(&mut self.conn, &mut lack, alloc);
        self.pass_on(read, lack)
    }

    fn trace(
        &mut self,
        alloc: Global,
        owners: &[Name],
        from: &LotId,
        way: Way,
    ) -> Result<Vec<Step>, KeepFault>
        ensures reading { IsReading (sql_meaning S.Store) self.old self.new result }
        ensures reads { OverContent (sql_meaning S.Store) self.old self.new (λ c. GivesTrace c owners.now from.now way result) }
        ensures alone { (os : List Bytes) → AreAmong owners.now os → ReadsHeld (sql_part S.Store os) self.old self.new result
            (λ c. GivesTrace c owners.now from.now way result) }
        ensures others { (os : List Bytes) → KeepsHeld (sql_part S.Store os) self.old self.new result }
    {
        self.begin()?;
        let recorded = self.recorded(alloc, owners)?;
        Ok(trace_recorded(alloc, recorded, from, way)?)
    }

    // All or none: one transaction.
    fn apply(&mut self, alloc: Global, changes: &[Change]) -> Result<(), KeepFault>
        ensures goes { CallEffect (sql_meaning S.Store) self.old self.new result }
        ensures all { OverContent (sql_meaning S.Store) self.old self.new (λ c. AllChangesFit c changes.now
            → OnOk result ((sql_meaning S.Store).holds self.new (content_after changes.now c))) }
        ensures none { OverContent (sql_meaning S.Store) self.old self.new (λ c. OnErr result ((sql_meaning S.Store).holds self.new c)) }
        ensures spared { result ≡ Err KeepFault.Memory → IsSpared (sql_meaning S.Store) self.old self.new }
        ensures whole { OverContent (sql_meaning S.Store) self.old self.new (λ c. ContentKeepsRules c → result ≢ Err KeepFault.Damaged) }
        ensures crash { OverLive (sql_meaning S.Store) self.old self.new (λ c. AllChangesFit c changes.now
            → (sql_meaning S.Store).leaves self.new (c ∷ content_after changes.now c ∷ [])) }
        ensures alone { (os : List Bytes) → MakesHeld (sql_part S.Store os) self.old self.new result changes.now }
        ensures others { (os : List Bytes) → PutsOutside os changes.now → KeepsHeld (sql_part S.Store os) self.old self.new result }
    {
        self.begin()?;
        let made = make_changes(&mut self.conn, alloc, changes);
        self.pass_on(made, MemoryLack::none())
    }

    ghost use Rattle.toll_keep.specs.CallEffects.{among-more};
    ghost use Rattle.toll_sql.specs.Holds.{Holds};
    ghost use Rattle.toll_sql.specs.Laws.{leaves_one, open_once};

    ghost settled = { λ k c honest live held. leaves_one _ c (λ db may. S.Store.settled k.conn.store db live.is_open may) (held live) };

    ghost lives_once = { λ k a b. open_once a b };

    ghost widened = { λ k cs more left db may. among-more (Holds db) cs more (left db may) };

    ghost use Rattle.toll_sql.specs.Holds.{HoldsFor};
    ghost use Rattle.toll_sql.specs.Laws.{narrowed_in_store};

    ghost narrows = { λ os k c held live. narrowed_in_store os _ c (held live) };

    ghost settled_for = { λ os k c honest live held. leaves_one _ c (λ db may. S.Store.settled k.conn.store db live.is_open may) (held live) };

    ghost widened_for = { λ os k cs more left db may. among-more (HoldsFor os db) cs more (left db may) };
}
