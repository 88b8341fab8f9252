// What the rule of the table says, whatever the threads do.
ghost use Rattle.reader_claims.specs.Laws.{HoldLaw, OpenLaw, GivenLaw, EpochLaw, HeldLaw, RetiredLaw, TakenLaw};
ghost use Rattle.reader_claims.specs.Laws.{TakerLaw, LearntLaw, LiveLaw, StepLaw, BareLaw};

/// What holds of every table that any list of steps of any seats leads to: no slot is given while a
/// reader holds it, nor is a pin held below a number at which a slot was given; a taken slot is its
/// taker's alone; and a live slot is freed in no other way than by `retire` and `give`. The function
/// does nothing: the law is its contract.
pub fn claims_law()
    // No step frees a slot that a reader holds.
    ensures hold { HoldLaw }
    // Where a slot may be given, no pin below its number is held,
    ensures open_at { OpenLaw }
    // nor is one later.
    ensures given { GivenLaw }
    // The epoch never falls.
    ensures epoch { EpochLaw }
    // A held pin stands in its word, and is at most the epoch.
    ensures held { HeldLaw }
    // So is each number at which a slot is retired.
    ensures retired { RetiredLaw }
    // A slot that a seat has is taken by that seat alone,
    ensures taken { TakenLaw }
    // and a taken slot is one that its taker has.
    ensures taker { TakerLaw }
    // What a seat holds is what was read of it, or at least what the seat that read it has reached.
    ensures learnt { LearntLaw }
    // A live slot changes by `retire` alone.
    ensures live { LiveLaw }
    // Each step leads to such a table again.
    ensures step { StepLaw }
    // A bare exchange that frees a live slot breaks the rule.
    ensures bare { BareLaw }
{}
