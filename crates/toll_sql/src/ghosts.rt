//! The ghosts of [`Keep`] for the keep over SQLite.
ghost use Rattle.std.specs.Prelude.{◌≡◌, ◌↔◌, List};
ghost use Rattle.sqlite.specs.Held.{state};
ghost use Rattle.sqlite.specs.State.{HasCleanDisk};
ghost use Rattle.sqlite.specs.Tree.{Trees};
ghost use Rattle.toll_base.specs.Bytes.{Bytes};
ghost use Rattle.toll_keep.specs.Content.{Content};
ghost use Rattle.toll_keep.specs.HeldFor.{AgreeFor};
ghost use Rattle.toll_sql.specs.Causes.{HasCause};
ghost use Rattle.toll_sql.specs.HeldFor.{HaveSameRows};
ghost use Rattle.toll_sql.specs.Holds.{Holds, HoldsFor, NameOwners};
ghost use Rattle.toll_sql.specs.Meant.{sql_part};
ghost use Rattle.toll_sql.specs.Stores.{HoldsOpenBy, HoldsWhileOpen, LeavesBy, LeavesIn, LiesOpen};
ghost use Rattle.toll_sql.specs.declared.sql_keep.SqlKeep.{SqlKeep};

use crate::sql_keep::SqlKeep;
use sqlite::Alter;
use toll_keep::Keep;

/// A keep over SQLite is honest while the disk has returned what was written to it, and live while its
/// connection is open. It is unsure of that if there was no memory to ask. Its causes of Disk are those
/// that `sqlite` names.
pub fn a_keep_over_sqlite_is_as_honest_as_its_disk<S: Alter>()
    ensures honest { (k : SqlKeep S S.Store) → ⟦<SqlKeep<S> as Keep>⟧.meaning.is_honest k ↔ HasCleanDisk (state S.Store k.conn) }
    ensures live { (k : SqlKeep S S.Store) → ⟦<SqlKeep<S> as Keep>⟧.meaning.is_store_open k ↔ LiesOpen (state S.Store k.conn) }
    ensures unsure { (k : SqlKeep S S.Store) → ⟦<SqlKeep<S> as Keep>⟧.meaning.is_unsure k ≡ k.unsure }
    ensures closed { (k : SqlKeep S S.Store) → ⟦<SqlKeep<S> as Keep>⟧.meaning.is_closed k ≡ k.closed }
    ensures cause { (old new : SqlKeep S S.Store) → ⟦<SqlKeep<S> as Keep>⟧.meaning.has_cause old new
        ↔ HasCause (state S.Store old.conn) (state S.Store new.conn) }
{}

/// If its connection is open, a keep over SQLite holds what its tables hold. A stop leaves what it
/// leaves of the store.
pub fn a_keep_over_sqlite_has_the_content_of_its_tables<S: Alter>()
    ensures holds { (k : SqlKeep S S.Store) (c : Content) → ⟦<SqlKeep<S> as Keep>⟧.meaning.holds k c ↔ HoldsWhileOpen (state S.Store k.conn) c }
    ensures leaves { (k : SqlKeep S S.Store) (cs : List Content) → ⟦<SqlKeep<S> as Keep>⟧.meaning.leaves k cs ↔ LeavesIn (state S.Store k.conn) cs }
{}

/// For some owners, a keep over SQLite holds their rows, whatever its tables have of others. A stop leaves
/// what it leaves of those rows. In all else it means the same: when it is honest, live, unsure or closed, and
/// its causes of Disk. What it holds, it holds for any owners. This is its `part` of [`Keep`].
pub fn a_keep_over_sqlite_holds_rows_for_some_owners<S: Alter>()
    ensures holds { (os : List Bytes) (k : SqlKeep S S.Store) (c : Content) → (sql_part S.Store os).holds k c
        ↔ HoldsOpenBy (HoldsFor os) (state S.Store k.conn) c }
    ensures leaves { (os : List Bytes) (k : SqlKeep S S.Store) (cs : List Content) → (sql_part S.Store os).leaves k cs
        ↔ LeavesBy (HoldsFor os) (state S.Store k.conn) cs }
    ensures honest { (os : List Bytes) (k : SqlKeep S S.Store) → (sql_part S.Store os).is_honest k ↔ ⟦<SqlKeep<S> as Keep>⟧.meaning.is_honest k }
    ensures live { (os : List Bytes) (k : SqlKeep S S.Store) → (sql_part S.Store os).is_store_open k ↔ ⟦<SqlKeep<S> as Keep>⟧.meaning.is_store_open k }
    ensures unsure { (os : List Bytes) (k : SqlKeep S S.Store) → (sql_part S.Store os).is_unsure k ≡ ⟦<SqlKeep<S> as Keep>⟧.meaning.is_unsure k }
    ensures closed { (os : List Bytes) (k : SqlKeep S S.Store) → (sql_part S.Store os).is_closed k ≡ ⟦<SqlKeep<S> as Keep>⟧.meaning.is_closed k }
    ensures cause { (os : List Bytes) (old new : SqlKeep S S.Store) → (sql_part S.Store os).has_cause old new
        ↔ ⟦<SqlKeep<S> as Keep>⟧.meaning.has_cause old new }
    ensures narrows { (os : List Bytes) (k : SqlKeep S S.Store) (c : Content) → ⟦<SqlKeep<S> as Keep>⟧.meaning.holds k c → (sql_part S.Store os).holds k c }
    ensures part_holds { (os : List Bytes) (k : SqlKeep S S.Store) (c : Content) → (⟦<SqlKeep<S> as Keep>⟧.part os).holds k c
        ↔ (sql_part S.Store os).holds k c }
    ensures part_leaves { (os : List Bytes) (k : SqlKeep S S.Store) (cs : List Content) → (⟦<SqlKeep<S> as Keep>⟧.part os).leaves k cs
        ↔ (sql_part S.Store os).leaves k cs }
{}

/// What tables hold for some owners depends on the rows of these owners alone, in the tables as in the content.
/// What they hold of a content they hold for any owners. If each row names an owner, what they hold for any
/// owners is all that they hold.
pub fn what_is_held_for_owners_is_in_their_rows()
    ensures rows { (os : List Bytes) (db other : Trees) (c : Content) → HaveSameRows os db other → HoldsFor os db c → HoldsFor os other c }
    ensures content { (os : List Bytes) (db : Trees) (c d : Content) → AgreeFor os c d → HoldsFor os db c → HoldsFor os db d }
    ensures narrowed { (os : List Bytes) (db : Trees) (c : Content) → Holds db c → HoldsFor os db c }
    ensures joined { (db : Trees) (c : Content) → ((os : List Bytes) → HoldsFor os db c) → NameOwners db → Holds db c }
    ensures named { (db : Trees) (c : Content) → Holds db c → NameOwners db }
{}
