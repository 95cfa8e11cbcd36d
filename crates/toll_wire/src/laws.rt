//! Laws of runs: which replies each owner gets in a run.
ghost use Rattle.std.specs.Prelude.{◌≡◌, true, false, is_some, List};
ghost use Rattle.toll_base.specs.Bytes.{Bytes, same_bytes};
ghost use Rattle.toll_base.specs.Values.{house_name};
ghost use Rattle.toll_base.specs.declared.lot.LotId.{LotId};
ghost use Rattle.toll_history.specs.History.{History, part};
ghost use Rattle.toll_history.specs.OwnerFacts.{lot_row};
ghost use Rattle.toll_history.specs.Verdict.{IsLawful};
ghost use Rattle.toll_trace.specs.declared.way.Way.{Way};
ghost use Rattle.toll_answers.specs.Agreement.{IfPartsAgree};
ghost use Rattle.toll_answers.specs.PlantAnswers.{IsPlantAnswer, Shows};
ghost use Rattle.toll_answers.specs.declared.plant_cmd.PlantCmd.TheVariants as PlantCmd;
ghost use Rattle.toll_answers.specs.Replies.{has_owner_key};
ghost use Rattle.toll_keep.specs.Meaning.{meaning_for};
ghost use Rattle.toll_desk.specs.Reads.{Over};
ghost use Rattle.toll_wire.specs.Laws.{AnswerAlike, AreDetermined, AreRunsAlike, Course, IsRunTo, PrintTheSame, PrintsTrace, RunPrivately, RepliesWithTrace};
ghost use Rattle.toll_wire.specs.OfficeRuns.{AreRequestsAnswered, IsRunFor};
ghost use Rattle.toll_wire.specs.Parts.{AreAlone, HasPart, OwnEvent, RepliesAsAlone};
ghost use Rattle.toll_wire.specs.Sayings.{Saying, Says};
ghost use Rattle.toll_wire.specs.declared.event.Answer.{Answer};
ghost use Rattle.toll_wire.specs.declared.event.Event.{Event};

use toll_keep::Keep;

/// The bytes of a request have one reading: the owner that it claims, with which key, and what it asks for;
/// or the reply that they get by themselves.
pub fn bytes_say_one_thing()
    ensures { (bytes : Bytes) (saying other : Saying) → Says bytes saying → Says bytes other → saying ≡ other }
{}

/// In each run of the office, an owner has its own part, as bytes: its requests and their replies, and the
/// accepted commands on its rows.
pub fn every_run_has_its_parts<K: Keep>()
    ensures { (k : K) (run : Course) → IsRunTo (K.meaning.holds k) run → (o : Bytes) → HasPart o run.events run.answers }
{}

/// The replies to each owner besides HOUSE are, byte for byte, those that its own requests, and the
/// accepted commands of the plant on its rows, give by themselves.
pub fn replies_are_those_that_the_owners_part_gives_alone<K: Keep>()
    ensures { (k : K) (run : Course) → IsRunTo (K.meaning.holds k) run → (o : Bytes) → same_bytes o house_name ≡ false
        → RepliesAsAlone o run.start run.events run.answers }
{}

/// An owner's part alone gives one list of replies.
pub fn a_part_alone_gives_one_list_of_replies()
    ensures { (F : History) (own : List OwnEvent) (replies others : List Bytes) → AreAlone F own replies → AreAlone F own others → replies ≡ others }
{}

/// Take two runs of the office, over any keeps, from histories that agree on an owner's part. If the owner
/// sent the same bytes in both, between the same accepted commands on its rows, they give it the same reply
/// bytes. The requests of all other clients may differ in any way and number.
pub fn runs_with_the_same_part_give_the_same_replies<J: Keep, K: Keep>()
    ensures { (j : J) (k : K) (one other : Course) → IsRunTo (J.meaning.holds j) one → IsRunTo (K.meaning.holds k) other → AreRunsAlike one other }
{}

/// Every run of steps to a lawful history is private: each owner has its part, and the replies to each besides
/// HOUSE are those that its part gives alone.
pub fn runs_are_private()
    ensures { (start : History) (events : List Event) → RunPrivately start events }
{}

/// Take any owners, and requests of anybody, answered one after another over one keep. Whatever rows the keep
/// has of others, sound or damaged, the requests of these owners that got a reply are a run of their own over
/// the rows of these owners, and leave its rows. So each owner besides HOUSE gets the reply bytes that its own
/// requests give by themselves.
pub fn requests_of_some_owners_are_a_run_of_their_own<K: Keep>()
    ensures { (os : List Bytes) (old new : K) (events : List Event) (answers : List Answer)
        → AreRequestsAnswered os K.meaning K.part old events answers new
        → Over (meaning_for K.meaning K.part os) old new (λ c H. IsRunFor os ((K.part os).holds new) H events answers) }
{}

/// If no answer says that there was no memory, or a fault, events have one list of answers, and leave one
/// history.
pub fn answers_are_determined()
    ensures { (start : History) (events : List Event) → AreDetermined start events }
{}

/// Over any two keeps whose rows are those of one history, the same events get the same answers, byte for
/// byte, if no answer says that there was no memory, or a fault.
pub fn any_two_keeps_answer_alike<J: Keep, K: Keep>()
    ensures { (j : J) (k : K) (H : History) (events : List Event) → AnswerAlike (J.meaning.holds j) (K.meaning.holds k) H events }
{}

/// Take two lawful histories in which the commands of HOUSE and of an owner are the same. They print the
/// recall of a lot of HOUSE with the same lines of that owner's lots, byte for byte.
pub fn recalls_print_the_same_lines_of_an_owner()
    ensures { (G H : History) (o : Bytes) (lot : LotId) → IsLawful G → IsLawful H → same_bytes o house_name ≡ false
        → IfPartsAgree G H o (PrintTheSame G H o lot) }
{}

/// The text of a trace for the plant lists exactly the lots that a chain of recorded consumption joins to the
/// lot in question, over the batches of all owners, each with its fewest steps.
pub fn the_plants_traces_are_printed()
    ensures { (H : History) (lot : LotId) (way : Way) (text : Bytes) → IsPlantAnswer H (PlantCmd.Trace lot way) (Shows text) → PrintsTrace H way lot text }
{}

/// The reply to an owner with its key, which asks for the trace of a lot that it has, lists exactly the lots
/// that a chain of its own batches joins to it, each with its fewest steps, byte for byte.
pub fn an_owners_traces_are_replied_byte_for_byte()
    ensures { (H : History) (o key lot : Bytes) (way : Way) → has_owner_key o key H ≡ true → is_some (lot_row H o lot) ≡ true
        → RepliesWithTrace H o key way lot }
{}
