//! Laws of the limits of the office.
ghost use Rattle.std.specs.Prelude.{◌≡◌, pos, neg_ℤ};
ghost use Rattle.toll_base.specs.declared.bounded.TheConstants.{MOST_AMOUNT, MOST_BATCHES, MOST_DAY, MOST_SEGMENTS};
ghost use Rattle.toll_base.specs.declared.capacity.TheConstants.{MOST_ACTUALS, MOST_LOTS, MOST_MATERIALS, MOST_MOVEMENTS, MOST_ORDERS, MOST_OWNERS, MOST_RECIPES, MOST_REQUIREMENTS, MOST_RESULTS, MOST_STOCK, MOST_SUBLOTS, MOST_TESTS, MOST_UNITS};
ghost use Rattle.toll_base.specs.declared.value.TheConstants.{LEAST_VALUE, MOST_VALUE};

/// The limits of the office are those that the pages state: how much it keeps of each kind, and how great
/// an amount, a day, a segment's number, a batch's number and a test's value are.
pub fn limits_are_those_defined()
    ensures plant { (MOST_OWNERS ≡ 64) × (MOST_UNITS ≡ 200) }
    ensures definitions { (MOST_MATERIALS ≡ 200) × (MOST_TESTS ≡ 2000) × (MOST_RECIPES ≡ 200) × (MOST_REQUIREMENTS ≡ 2000) }
    ensures orders { (MOST_ORDERS ≡ 2000) × (MOST_SEGMENTS ≡ 50) × (MOST_BATCHES ≡ 99) × (MOST_ACTUALS ≡ 200) }
    ensures lots { (MOST_LOTS ≡ 5000) × (MOST_SUBLOTS ≡ 20000) × (MOST_MOVEMENTS ≡ 20000) × (MOST_RESULTS ≡ 20000) }
    ensures numbers { (MOST_AMOUNT ≡ 1000000000) × (MOST_STOCK ≡ 20000000000000) × (MOST_DAY ≡ 9999999) }
    ensures values { (LEAST_VALUE ≡ neg_ℤ (pos 1000000000)) × (MOST_VALUE ≡ pos 1000000000) }
{}
