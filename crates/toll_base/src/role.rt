//! How an actual, or a requirement of a recipe, uses a material.
ghost use Rattle.std.specs.Prelude.{◌≡◌, Some, refl};
ghost use Rattle.std.proofs.lemmas.Cmp.{nat_cmp_total, on_total};
ghost use Rattle.std.specs.Cmp.{partial_equiv_from_equiv, eq_by_cmp_equiv, partial_order_from_total};
ghost use Rattle.toll_base.specs.Roles.{role_number, role_cmp, same_role};
ghost use Rattle.toll_base.specs.ValueWords.{use_word};

use std::cmp::Ordering;

/// Whether a segment consumes a material or produces it (the use of a material, IEC 62264-2).
/// Consumed comes before produced.
#[derive(Clone, Copy)]
pub enum Role {
    Consumed,
    Produced,
}

impl Role {
    /// How it is printed: `consumed` or `produced`.
    pub fn word(&self) -> &'static str
        ensures { result.now ≡ use_word self.now }
    {
        match self {
            Role::Consumed => "consumed",
            Role::Produced => "produced",
        }
    }

    fn rank(&self) -> u8
        ensures { result ≡ role_number self.now }
    {
        match self {
            Role::Consumed => 0,
            Role::Produced => 1,
        }
    }
}

impl PartialEq for Role {
    ghost eq = { same_role };

    ghost laws = { partial_equiv_from_equiv (eq_by_cmp_equiv (on_total role_number nat_cmp_total)) };

    fn eq(&self, other: &Self) -> bool {
        self.cmp(other).is_eq()
    }
}

impl Eq for Role {
    ghost laws = { eq_by_cmp_equiv (on_total role_number nat_cmp_total) };
}

impl PartialOrd for Role {
    ghost partial_cmp = { λ a b. Some (role_cmp a b) };

    ghost laws = { partial_order_from_total (on_total role_number nat_cmp_total) };

    fn partial_cmp(&self, other: &Self) -> Option<Ordering> {
        Some(self.cmp(other))
    }
}

impl Ord for Role {
    ghost cmp = { role_cmp };

    ghost total = { on_total role_number nat_cmp_total };

    ghost matches_partial_cmp = { λ a b. refl };

    ghost matches_eq = { λ a b. refl };

    fn cmp(&self, other: &Self) -> Ordering {
        self.rank().cmp(&other.rank())
    }
}
