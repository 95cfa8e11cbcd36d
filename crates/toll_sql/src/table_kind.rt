//! The tables, and the texts of the statements on them. Written by tools/sql-texts.
ghost use Rattle.std.specs.Prelude.{◌≡◌};
ghost use Rattle.toll_sql.specs.Schema.{create_text, put_text, select_text, is_owned};

/// A table.
#[derive(Clone, Copy)]
pub enum TableKind {
    Meta,
    Owners,
    Units,
    Materials,
    Tests,
    Recipes,
    Requirements,
    Orders,
    Batches,
    Lots,
    Sublots,
    Moves,
    Results,
    Voids,
}

impl TableKind {
    /// The text that makes the table.
    pub fn create_text(self) -> &'static str
        ensures { result.now ≡ create_text self }
    {
        match self {
            TableKind::Meta =>
                "CREATE TABLE meta (name TEXT NOT NULL, value INTEGER NOT NULL, PRIMARY KEY (name)) STRICT",
            TableKind::Owners =>
                "CREATE TABLE owners (owner TEXT NOT NULL, okey TEXT NOT NULL, PRIMARY KEY (owner)) STRICT",
            TableKind::Units =>
                "CREATE TABLE units (unit TEXT NOT NULL, PRIMARY KEY (unit)) STRICT",
            TableKind::Materials =>
                "CREATE TABLE materials (owner TEXT NOT NULL, material TEXT NOT NULL, measure TEXT NOT NULL, PRIMARY KEY (owner, material)) STRICT",
            TableKind::Tests =>
                "CREATE TABLE tests (owner TEXT NOT NULL, material TEXT NOT NULL, test TEXT NOT NULL, low INTEGER NOT NULL, high INTEGER NOT NULL, PRIMARY KEY (owner, material, test)) STRICT",
            TableKind::Recipes =>
                "CREATE TABLE recipes (owner TEXT NOT NULL, recipe TEXT NOT NULL, segments INTEGER NOT NULL, PRIMARY KEY (owner, recipe)) STRICT",
            TableKind::Requirements =>
                "CREATE TABLE requirements (owner TEXT NOT NULL, recipe TEXT NOT NULL, segment INTEGER NOT NULL, role INTEGER NOT NULL, source TEXT NOT NULL, material TEXT NOT NULL, amount INTEGER NOT NULL, PRIMARY KEY (owner, recipe, segment, role, source, material)) STRICT",
            TableKind::Orders =>
                "CREATE TABLE orders (owner TEXT NOT NULL, ord TEXT NOT NULL, recipe TEXT NOT NULL, batches INTEGER NOT NULL, cancelled INTEGER NOT NULL, PRIMARY KEY (owner, ord)) STRICT",
            TableKind::Batches =>
                "CREATE TABLE batches (owner TEXT NOT NULL, ord TEXT NOT NULL, number INTEGER NOT NULL, unit TEXT NOT NULL, state INTEGER NOT NULL, closed INTEGER NOT NULL, PRIMARY KEY (owner, ord, number)) STRICT",
            TableKind::Lots =>
                "CREATE TABLE lots (owner TEXT NOT NULL, lot TEXT NOT NULL, material TEXT NOT NULL, ord TEXT NOT NULL, number INTEGER NOT NULL, disposition INTEGER NOT NULL, PRIMARY KEY (owner, lot)) STRICT",
            TableKind::Sublots =>
                "CREATE TABLE sublots (owner TEXT NOT NULL, lot TEXT NOT NULL, sublot TEXT NOT NULL, amount INTEGER NOT NULL, PRIMARY KEY (owner, lot, sublot)) STRICT",
            TableKind::Moves =>
                "CREATE TABLE moves (owner TEXT NOT NULL, mkey TEXT NOT NULL, kind INTEGER NOT NULL, lot_owner TEXT NOT NULL, lot TEXT NOT NULL, sublot TEXT NOT NULL, target TEXT NOT NULL, material TEXT NOT NULL, ord TEXT NOT NULL, number INTEGER NOT NULL, segment INTEGER NOT NULL, amount INTEGER NOT NULL, day INTEGER NOT NULL, PRIMARY KEY (owner, mkey)) STRICT",
            TableKind::Results =>
                "CREATE TABLE results (owner TEXT NOT NULL, lot TEXT NOT NULL, test TEXT NOT NULL, number INTEGER NOT NULL, value INTEGER NOT NULL, day INTEGER NOT NULL, PRIMARY KEY (owner, lot, test, number)) STRICT",
            TableKind::Voids =>
                "CREATE TABLE voids (owner TEXT NOT NULL, mkey TEXT NOT NULL, PRIMARY KEY (owner, mkey)) STRICT",
        }
    }

    /// The text that puts a row, in place of the one with its key.
    pub fn put_text(self) -> &'static str
        ensures { result.now ≡ put_text self }
    {
        match self {
            TableKind::Meta =>
                "INSERT INTO meta (name, value) VALUES (?1, ?2) ON CONFLICT (name) DO UPDATE SET name = ?1, value = ?2",
            TableKind::Owners =>
                "INSERT INTO owners (owner, okey) VALUES (?1, ?2) ON CONFLICT (owner) DO UPDATE SET owner = ?1, okey = ?2",
            TableKind::Units =>
                "INSERT INTO units (unit) VALUES (?1) ON CONFLICT (unit) DO UPDATE SET unit = ?1",
            TableKind::Materials =>
                "INSERT INTO materials (owner, material, measure) VALUES (?1, ?2, ?3) ON CONFLICT (owner, material) DO UPDATE SET owner = ?1, material = ?2, measure = ?3",
            TableKind::Tests =>
                "INSERT INTO tests (owner, material, test, low, high) VALUES (?1, ?2, ?3, ?4, ?5) ON CONFLICT (owner, material, test) DO UPDATE SET owner = ?1, material = ?2, test = ?3, low = ?4, high = ?5",
            TableKind::Recipes =>
                "INSERT INTO recipes (owner, recipe, segments) VALUES (?1, ?2, ?3) ON CONFLICT (owner, recipe) DO UPDATE SET owner = ?1, recipe = ?2, segments = ?3",
            TableKind::Requirements =>
                "INSERT INTO requirements (owner, recipe, segment, role, source, material, amount) VALUES (?1, ?2, ?3, ?4, ?5, ?6, ?7) ON CONFLICT (owner, recipe, segment, role, source, material) DO UPDATE SET owner = ?1, recipe = ?2, segment = ?3, role = ?4, source = ?5, material = ?6, amount = ?7",
            TableKind::Orders =>
                "INSERT INTO orders (owner, ord, recipe, batches, cancelled) VALUES (?1, ?2, ?3, ?4, ?5) ON CONFLICT (owner, ord) DO UPDATE SET owner = ?1, ord = ?2, recipe = ?3, batches = ?4, cancelled = ?5",
            TableKind::Batches =>
                "INSERT INTO batches (owner, ord, number, unit, state, closed) VALUES (?1, ?2, ?3, ?4, ?5, ?6) ON CONFLICT (owner, ord, number) DO UPDATE SET owner = ?1, ord = ?2, number = ?3, unit = ?4, state = ?5, closed = ?6",
            TableKind::Lots =>
                "INSERT INTO lots (owner, lot, material, ord, number, disposition) VALUES (?1, ?2, ?3, ?4, ?5, ?6) ON CONFLICT (owner, lot) DO UPDATE SET owner = ?1, lot = ?2, material = ?3, ord = ?4, number = ?5, disposition = ?6",
            TableKind::Sublots =>
                "INSERT INTO sublots (owner, lot, sublot, amount) VALUES (?1, ?2, ?3, ?4) ON CONFLICT (owner, lot, sublot) DO UPDATE SET owner = ?1, lot = ?2, sublot = ?3, amount = ?4",
            TableKind::Moves =>
                "INSERT INTO moves (owner, mkey, kind, lot_owner, lot, sublot, target, material, ord, number, segment, amount, day) VALUES (?1, ?2, ?3, ?4, ?5, ?6, ?7, ?8, ?9, ?10, ?11, ?12, ?13) ON CONFLICT (owner, mkey) DO UPDATE SET owner = ?1, mkey = ?2, kind = ?3, lot_owner = ?4, lot = ?5, sublot = ?6, target = ?7, material = ?8, ord = ?9, number = ?10, segment = ?11, amount = ?12, day = ?13",
            TableKind::Results =>
                "INSERT INTO results (owner, lot, test, number, value, day) VALUES (?1, ?2, ?3, ?4, ?5, ?6) ON CONFLICT (owner, lot, test, number) DO UPDATE SET owner = ?1, lot = ?2, test = ?3, number = ?4, value = ?5, day = ?6",
            TableKind::Voids =>
                "INSERT INTO voids (owner, mkey) VALUES (?1, ?2) ON CONFLICT (owner, mkey) DO UPDATE SET owner = ?1, mkey = ?2",
        }
    }

    /// The text that reads the owner's rows, or all of a table that isn't divided by owner, in the order
    /// of the key.
    pub fn select_text(self) -> &'static str
        ensures { result.now ≡ select_text self }
    {
        match self {
            TableKind::Meta => "SELECT name, value FROM meta ORDER BY name",
            TableKind::Owners => "SELECT owner, okey FROM owners ORDER BY owner",
            TableKind::Units => "SELECT unit FROM units ORDER BY unit",
            TableKind::Materials =>
                "SELECT owner, material, measure FROM materials WHERE owner = ?1 ORDER BY owner, material",
            TableKind::Tests =>
                "SELECT owner, material, test, low, high FROM tests WHERE owner = ?1 ORDER BY owner, material, test",
            TableKind::Recipes =>
                "SELECT owner, recipe, segments FROM recipes WHERE owner = ?1 ORDER BY owner, recipe",
            TableKind::Requirements =>
                "SELECT owner, recipe, segment, role, source, material, amount FROM requirements WHERE owner = ?1 ORDER BY owner, recipe, segment, role, source, material",
            TableKind::Orders =>
                "SELECT owner, ord, recipe, batches, cancelled FROM orders WHERE owner = ?1 ORDER BY owner, ord",
            TableKind::Batches =>
                "SELECT owner, ord, number, unit, state, closed FROM batches WHERE owner = ?1 ORDER BY owner, ord, number",
            TableKind::Lots =>
                "SELECT owner, lot, material, ord, number, disposition FROM lots WHERE owner = ?1 ORDER BY owner, lot",
            TableKind::Sublots =>
                "SELECT owner, lot, sublot, amount FROM sublots WHERE owner = ?1 ORDER BY owner, lot, sublot",
            TableKind::Moves =>
                "SELECT owner, mkey, kind, lot_owner, lot, sublot, target, material, ord, number, segment, amount, day FROM moves WHERE owner = ?1 ORDER BY owner, mkey",
            TableKind::Results =>
                "SELECT owner, lot, test, number, value, day FROM results WHERE owner = ?1 ORDER BY owner, lot, test, number",
            TableKind::Voids =>
                "SELECT owner, mkey FROM voids WHERE owner = ?1 ORDER BY owner, mkey",
        }
    }
}
