//! Replies to an owner come from the owner's own commands.
ghost use Rattle.std.specs.Prelude.{◌≡◌, false};
ghost use Rattle.toll_answers.specs.Common.{Bytes, same_bytes, house_name, History, part, IsLawful};
ghost use Rattle.toll_base.specs.declared.request.Request.{Request};
ghost use Rattle.toll_answers.specs.Replies.{IsOwnGrowth, IsOwnReply};
ghost use Rattle.toll_answers.specs.OwnerReply.{OwnerReply};

/// Over every lawful history, each reply to an owner besides HOUSE is the reply over the owner's own
/// part of it; and what a request makes of the history, cut to the owner, is what it makes of the
/// part.
pub fn replies_come_from_the_owners_part()
    ensures reply { (H : History) (o key : Bytes) (q : Request) (r : OwnerReply) → IsLawful H
        → same_bytes o house_name ≡ false → IsOwnReply o key H q r }
    ensures growth { (H : History) (o key : Bytes) (q : Request) → IsLawful H
        → same_bytes o house_name ≡ false → IsOwnGrowth o key H q }
{}
