// What holds in the joined machine, whatever its seats do.
ghost use Rattle.reclamation_law.specs.Laws.{JoinedLaw, HeadLaw, JoinedHoldLaw, HighestLaw};
ghost use Rattle.reclamation_law.specs.Laws.{TableLaw, OpeningLaw, TurnLaw};
ghost use Rattle.reclamation_law.specs.Laws.{LostTurnLaw};
ghost use Rattle.reclamation_law.specs.Stamps.{StampLaw};

/// For every list of events of the joined machine, with any number of seats (up to the 256 that the claims
/// table has words for) and of slots: no slot that the head reaches, or that a commit loaded under a pin still
/// held reaches, is ever given, withdrawn or taken. So what a reader looks for is what lies there.
///
/// The function does nothing: the law is its contract.
pub fn joined_law()
    // No slot that the head or a loaded commit reaches is used again.
    ensures joined { JoinedLaw }
    // The head's slots are live.
    ensures head { HeadLaw }
    // A seat holds each slot of a commit that it loaded under its pin.
    ensures hold { JoinedHoldLaw }
    // A reader never meets a foreign stamp.
    ensures stamps { StampLaw }
    // A seat that loaded the epoch at its highest number retires nothing.
    ensures highest { HighestLaw }
    // The claims table goes no way that its own steps don't go,
    ensures table { TableLaw }
    // and for every number of seats and all slots the machine can open so.
    ensures opening { OpeningLaw }
    // A slot that was dropped can come back.
    ensures turn { TurnLaw }
    // So can one that was settled in a try that was lost or given up.
    ensures lost_turn { LostTurnLaw }
{}
