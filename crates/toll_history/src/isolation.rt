//! What belongs to an owner comes from the owner's own commands.
ghost use Rattle.std.specs.Prelude.{◌≡◌, ◌∷◌, false};
ghost use Rattle.toll_base.specs.Bytes.{Bytes, same_bytes};
ghost use Rattle.toll_base.specs.Values.{house_name};
ghost use Rattle.toll_history.specs.Command.{Command};
ghost use Rattle.toll_history.specs.History.{History, part};
ghost use Rattle.toll_history.specs.Laws.{KeepsHouse, KeepsTables};
ghost use Rattle.toll_history.specs.OwnerFacts.{facts_given, without_amounts};
ghost use Rattle.toll_history.specs.Verdict.{IsLawful};

/// Over every lawful history, each owner's tables are those that its own part of the history gives. HOUSE's
/// are too, except for the amounts in its sublots, which other owners' batches consume.
pub fn tables_come_from_the_owners_part()
    ensures owners { (H : History) (o : Bytes) → IsLawful H → same_bytes o house_name ≡ false
        → facts_given (part o H) o ≡ facts_given H o }
    ensures house { (H : History) → IsLawful H
        → without_amounts (facts_given (part house_name H) house_name)
        ≡ without_amounts (facts_given H house_name) }
{}

/// An accepted command of one owner leaves the tables of every other owner as they are, the amounts
/// in HOUSE's sublots excepted.
pub fn commands_keep_the_tables_of_others()
    ensures owners { (H : History) (c : Command) (o : Bytes) → IsLawful (c ∷ H)
        → same_bytes c.owner o ≡ false → KeepsTables H c o }
    ensures house { (H : History) (c : Command) → IsLawful (c ∷ H)
        → same_bytes c.owner house_name ≡ false → KeepsHouse H c }
{}
