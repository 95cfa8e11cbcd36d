//! Making a keep over a store, and giving the store back.
ghost use Rattle.std.specs.Prelude.{◌≡◌, false, None, Err, List, codes, IfOk, IfErr, OnOk};
ghost use Rattle.sqlite.specs.Held.{state};
ghost use Rattle.sqlite.specs.State.{HasCleanDisk};
ghost use Rattle.sqlite.specs.Steps.{over_memory};
ghost use Rattle.sqlite_wal.specs.Files.{image_at};
ghost use Rattle.toll_base.specs.Bytes.{Bytes};
ghost use Rattle.toll_keep.specs.Content.{Content, empty_content};
ghost use Rattle.toll_sql.specs.FromFiles.{IsKeptFrom, IsLeftIn, IsOpenedFrom, IsUnclosed, RefusesFrom, CreatesOrAdopts, UnopensFrom, fault_of_files};
ghost use Rattle.toll_sql.specs.Holds.{HoldsFor};
ghost use Rattle.toll_sql.specs.Opening.{Adopts, Creates, open_refusal, succeeds};
ghost use Rattle.toll_sql.specs.Stores.{HoldsBy, HoldsIn};

use crate::adopting::{adopt_tables, new_office};
use crate::creating::create_tables;
use crate::open_fault::OpenFault;
use crate::sql_keep::SqlKeep;
use crate::store_errors::{LackCount, fault_of};
use sqlite::{Alter, Connection, Error, ErrorCode, FileFrom, FileStore, MemStore, Start};
use std::alloc::Global;
use std::rt::HostRuntime;
use toll_keep::KeepFault;

impl<S: Alter> SqlKeep<S> {
    // The keep over this connection, before its first call.
    fn over(conn: Connection<S>) -> SqlKeep<S>
        requires autocommit { conn.in_transaction ≡ false }
        requires unlimited { conn.step_limit ≡ None }
        ensures { (result.conn ≡ conn) × (result.closed ≡ false) }
    {
        SqlKeep {
            conn,
            closed: false,
            unsure: true,
            lacks: LackCount::zero(),
        }
    }

    /// A keep of a store that has no tables. They are made, in one transaction, and the keep holds
    /// nothing. A refusal gives the connection back. Its faults are those of [`create_tables`].
    pub fn create(mut conn: Connection<S>) -> Result<SqlKeep<S>, (OpenFault, Connection<S>)>
        ensures made { IfOk result (λ keep. Creates (state S.Store conn) (state S.Store keep.conn) succeeds × (keep.closed ≡ false)) }
        ensures refused { IfErr result (λ left. Creates (state S.Store conn) (state S.Store left.1) (open_refusal left.0)) }
    {
        match create_tables(&mut conn) {
            Ok(()) => Ok(SqlKeep::over(conn)),
            Err(fault) => Err((fault, conn)),
        }
    }

    /// A keep of the office's tables as they are. Those of version 1 are brought to this version. What those
    /// of this version hold for some owners stays, whatever rows they have of others. A refusal gives the
    /// connection back. Its faults are those of [`adopt_tables`].
    pub fn adopt(
        alloc: Global,
        mut conn: Connection<S>,
    ) -> Result<SqlKeep<S>, (OpenFault, Connection<S>)>
        ensures found { IfOk result (λ keep. Adopts (state S.Store conn) (state S.Store keep.conn) succeeds × (keep.closed ≡ false)) }
        ensures held { IfOk result (λ keep. HasCleanDisk (state S.Store keep.conn) → (os : List Bytes) (c : Content)
            → HoldsBy (HoldsFor os) (state S.Store conn) c → HoldsBy (HoldsFor os) (state S.Store keep.conn) c) }
        ensures refused { IfErr result (λ left. Adopts (state S.Store conn) (state S.Store left.1) (open_refusal left.0)) }
    {
        match adopt_tables(alloc, &mut conn) {
            Ok(()) => Ok(SqlKeep::over(conn)),
            Err(fault) => Err((fault, conn)),
        }
    }

    /// The connection, even of a keep that answers Closed.
    pub fn into_connection(self) -> Connection<S>
        ensures { result ≡ self.conn }
    {
        let SqlKeep {
            conn,
            closed: _,
            unsure: _,
            lacks: _,
        } = self;
        conn
    }
}

impl SqlKeep<MemStore> {
    /// A keep in memory that holds nothing. Memory if memory runs out.
    pub fn in_memory(alloc: Global) -> Result<SqlKeep<MemStore>, OpenFault>
        ensures holds { IfOk result (λ keep. HoldsIn (state over_memory keep.conn) empty_content × (keep.closed ≡ false)) }
        ensures fault { IfErr result (λ fault. fault ≡ OpenFault.Memory) }
    {
        let conn = new_office(alloc)?;
        Ok(SqlKeep::over(conn))
    }
}

impl<S: Start> SqlKeep<FileStore<FileFrom<S>>> {
    /// A keep of the file. A `fresh` file has no tables yet, and they are made. Otherwise its tables are
    /// adopted. `start` represents the content of the file. Memory if memory runs out, Disk if the file
    /// can't be opened (the path `:memory:` names no file), NotOurs if it isn't a database. The other
    /// faults are those of [`SqlKeep::create`] and [`SqlKeep::adopt`].
    pub fn open_from(
        rt: &HostRuntime,
        path: &str,
        fresh: bool,
        start: S,
    ) -> Result<SqlKeep<FileStore<FileFrom<S>>>, OpenFault>
        ensures memory { path.now ≡ codes ":memory:" → result ≡ Err OpenFault.Disk }
        ensures made { IfOk result (λ keep. IsKeptFrom fresh (image_at S.Start) keep.conn × (keep.closed ≡ false)) }
        ensures refused { RefusesFrom (λ keep. keep.conn) fresh (image_at S.Start) result }
    {
        match connect(rt, path, start) {
            Ok(conn) => keep_of(rt.alloc(), conn, fresh),
            Err(fault) => Err(fault),
        }
    }

    /// Copies committed changes into the database file and closes both files. Memory if memory runs
    /// out, Disk if the disk fails or refuses. Even then the two files have all committed changes.
    pub fn close(self) -> Result<(), KeepFault>
        ensures copied { OnOk result (IsLeftIn self.conn) }
        ensures unclosed { IfErr result (λ fault. (last : _) × IsUnclosed self.conn last fault) }
    {
        close_connection(self.into_connection())
    }
}

// Closes the files of a connection, after it copied committed changes into the database file.
fn close_connection<S: Start>(conn: Connection<FileStore<FileFrom<S>>>) -> Result<(), KeepFault>
    ensures copied { OnOk result (IsLeftIn conn) }
    ensures unclosed { IfErr result (λ fault. (last : _) × IsUnclosed conn last fault) }
{
    match conn.close_files() {
        Ok(_) => Ok(()),
        Err((error, store)) => {
            drop(store.close());
            Err(fault_of(error))
        },
    }
}

// A connection to the file.
fn connect<S: Start>(
    rt: &HostRuntime,
    path: &str,
    start: S,
) -> Result<Connection<FileStore<FileFrom<S>>>, OpenFault>
    ensures memory { path.now ≡ codes ":memory:" → result ≡ Err OpenFault.Disk }
    ensures opened { IfOk result (IsOpenedFrom (image_at S.Start)) }
    ensures unopened { UnopensFrom (λ conn. conn) result }
{
    match Connection::open_from(rt, path, false, start) {
        Ok(conn) => Ok(conn),
        Err((error, _)) => Err(file_fault_of(error)),
    }
}

// The keep that takes the connection over. If there is no keep, the connection is dropped.
fn keep_of<S: Alter + Drop>(
    alloc: Global,
    conn: Connection<S>,
    fresh: bool,
) -> Result<SqlKeep<S>, OpenFault>
    ensures made { IfOk result (λ keep. CreatesOrAdopts fresh (state S.Store conn) (state S.Store keep.conn) succeeds × (keep.closed ≡ false)) }
    ensures refused { IfErr result (λ fault. (left : _) × CreatesOrAdopts fresh (state S.Store conn) (state S.Store left) (open_refusal fault)) }
{
    match take_over(alloc, conn, fresh) {
        Ok(keep) => Ok(keep),
        Err((fault, _)) => Err(fault),
    }
}

// Makes the tables, or adopts them.
fn take_over<S: Alter>(
    alloc: Global,
    conn: Connection<S>,
    fresh: bool,
) -> Result<SqlKeep<S>, (OpenFault, Connection<S>)>
    ensures made { IfOk result (λ keep. CreatesOrAdopts fresh (state S.Store conn) (state S.Store keep.conn) succeeds × (keep.closed ≡ false)) }
    ensures refused { IfErr result (λ left. CreatesOrAdopts fresh (state S.Store conn) (state S.Store left.1) (open_refusal left.0)) }
{
    if fresh {
        SqlKeep::create(conn)
    } else {
        SqlKeep::adopt(alloc, conn)
    }
}

// The fault for an error of opening a file.
fn file_fault_of(error: Error) -> OpenFault
    ensures { result ≡ fault_of_files error }
{
    match error {
        Error::SqliteFailure(ErrorCode::OutOfMemory) => OpenFault::Memory,
        Error::SqliteFailure(ErrorCode::NotADatabase) => OpenFault::NotOurs,
        _ => OpenFault::Disk,
    }
}
