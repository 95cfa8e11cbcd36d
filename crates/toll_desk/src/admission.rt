//! Admission: an added owner is admitted with its key.
ghost use Rattle.std.specs.Prelude.{◌≡◌, List, IfOk, IfSome};
ghost use Rattle.toll_base.specs.Bytes.{Bytes, bytes_cmp, same_bytes};
ghost use Rattle.toll_base.specs.Table.{row_at};
ghost use Rattle.toll_base.specs.Values.{house_name};
ghost use Rattle.toll_base.specs.Words.{where_so};
ghost use Rattle.toll_keep.specs.CallEffects.{IsReading};
ghost use Rattle.toll_keep.specs.Meaning.{OverContent, meaning_for};
ghost use Rattle.toll_desk.specs.Clauses.{IsFoundBy};
ghost use Rattle.toll_desk.specs.Admission.{is_admitted};

use std::alloc::Global;
use toll_base::{Name, OwnerRow};
use toll_keep::{Keep, KeepFault};

/// Whether the two are the same bytes.
pub fn is_same(bytes: &[u8], other: &[u8]) -> bool
    ensures { result ≡ same_bytes bytes.now other.now }
{
    bytes.cmp(other).is_eq()
}

/// Whether these bytes are the name of HOUSE.
#[tactic(auto, unfolding(toll_base::specs::Values::house_name))]
pub fn is_house(owner: &[u8]) -> bool
    ensures { result ≡ same_bytes owner.now house_name }
{
    is_same(owner, Name::house().as_bytes())
}

/// The owner of this name, among those that were added.
pub fn find_owner(rows: &[OwnerRow], owner: &[u8]) -> Option<OwnerRow>
    ensures { result ≡ row_at bytes_cmp (λ row. row.owner) rows.now owner.now }
{
    rows.iter()
        .find(|row| is_same(owner, row.owner.as_bytes()))
        .copied()
}

// The owner with this key, among those that were added.
fn admitted(rows: &[OwnerRow], owner: &[u8], key: &[u8]) -> Option<Name>
    ensures { result ≡ where_so (is_admitted rows.now owner.now key.now) owner.now }
{
    if is_house(owner) {
        return None;
    }
    let row = find_owner(rows, owner)?;
    if is_same(key, row.key.as_bytes()) {
        Some(row.owner)
    } else {
        None
    }
}

/// The owner, if it was added with that key. HOUSE wasn't added. It fails only if the keep's call does.
pub fn admit<K: Keep>(
    alloc: Global,
    keep: &mut K,
    owner: &[u8],
    key: &[u8],
) -> Result<Option<Name>, KeepFault>
    ensures reads { IsReading K.meaning keep.old keep.new result }
    ensures named { IfOk result (λ found. IfSome found (λ name. name ≡ owner.now)) }
    ensures found { OverContent K.meaning keep.old keep.new (λ c. IsFoundBy c owner.now key.now result) }
    ensures alone { (os : List Bytes) → IsReading (meaning_for K.meaning K.part os) keep.old keep.new result }
    ensures own { (os : List Bytes) → OverContent (meaning_for K.meaning K.part os) keep.old keep.new (λ c. IsFoundBy c owner.now key.now result) }
{
    match keep.owners(alloc) {
        Ok(rows) => Ok(admitted(&rows, owner, key)),
        Err(fault) => Err(fault),
    }
}
