//! Rows of actuals.
ghost use Rattle.std.specs.Prelude.{IsTrue};
ghost use Rattle.toll_base.specs.SliceRules.{is_actual};

use toll_base::MoveRow;

/// A movement that is an actual of a batch: no other kind can be made into one.
#[derive(Clone, Copy)]
pub struct ActualRow {
    pub movement: MoveRow,
    pub ghost actual: { IsTrue (is_actual movement.what) },
}
