//! Which other owner's material a recipe may name.
ghost use Rattle.std.specs.Prelude.{◌≡◌};
ghost use Rattle.toll_history.specs.Verdict as verdict;

use toll_base::{Name, Role};

/// Whether the source is neither the owner nor HOUSE, or, for what is produced, isn't the owner.
pub fn crosses(owner: &Name, role: Role, source: &Name) -> bool
    ensures { result ≡ verdict.crosses owner.now role source.now }
{
    match role {
        Role::Consumed => *source != *owner && *source != Name::house(),
        Role::Produced => *source != *owner,
    }
}
