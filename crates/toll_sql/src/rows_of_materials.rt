//! Materials, tests, recipes and requirements in the tables.
ghost use Rattle.toll_sql.specs.Kinds.{material_kind, test_kind, recipe_kind, requirement_kind};

use crate::cells::{bounded_at, limits_at, measure_at, name_at, role_at};
use crate::stored::StoredRow;
use sqlite::Row as Stored;
use toll_base::{MaterialRow, RecipeRow, RequirementRow, Row, TestRow};

impl StoredRow for MaterialRow {
    ghost kind = { material_kind };

    fn into_row(self) -> Row {
        Row::Material(self)
    }

    fn read(from: &Stored) -> Option<Self> {
        Some(MaterialRow {
            material: name_at(from, 1)?,
            measure: measure_at(from, 2)?,
        })
    }
}

impl StoredRow for TestRow {
    ghost kind = { test_kind };

    fn into_row(self) -> Row {
        Row::Test(self)
    }

    fn read(from: &Stored) -> Option<Self> {
        Some(TestRow {
            material: name_at(from, 1)?,
            test: name_at(from, 2)?,
            limits: limits_at(from, 3, 4)?,
        })
    }
}

impl StoredRow for RecipeRow {
    ghost kind = { recipe_kind };

    fn into_row(self) -> Row {
        Row::Recipe(self)
    }

    fn read(from: &Stored) -> Option<Self> {
        Some(RecipeRow {
            recipe: name_at(from, 1)?,
            segments: bounded_at(from, 2)?,
        })
    }
}

impl StoredRow for RequirementRow {
    ghost kind = { requirement_kind };

    fn into_row(self) -> Row {
        Row::Requirement(self)
    }

    fn read(from: &Stored) -> Option<Self> {
        Some(RequirementRow {
            recipe: name_at(from, 1)?,
            segment: bounded_at(from, 2)?,
            role: role_at(from, 3)?,
            source: name_at(from, 4)?,
            material: name_at(from, 5)?,
            amount: bounded_at(from, 6)?,
        })
    }
}
