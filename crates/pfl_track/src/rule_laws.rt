//! Laws of tracking by the kernel's rules, as far as we know them. They have no code: each is a theorem over the definitions,
//! which a function's contract names.

ghost use Rattle.pfl_track.specs.RuleLaws.{AllRenewBy, EndsMoveBy, JudgementsAgree, LooseAdds, LowersNoLevelAlongBy, LowersNoLevelBy};
ghost use Rattle.pfl_track.specs.RuleLaws.{BareAcksByAck, NoneIsProfile, NoneTestsByProfile, OnlyMotionBy, OutcomesFollow};
ghost use Rattle.pfl_track.specs.RuleLaws.{ResetRefuses, ScaleAnswersOffers, StaysStateAlongBy, StaysStateBy, UnitsCover};

/// Where none of the rules `window`, `loose`, `reset` and `scale` is the kernel's, packets move states by the profile, but for those
/// of ICMP by `icmp`, and are tested by it and by nothing else.
pub fn no_rules_are_the_profile()
    ensures moved { NoneIsProfile }
    ensures tested { NoneTestsByProfile }
{}

/// Whichever rules are the kernel's, a packet lowers the level of no end, and lifts none above [`crate::MAX_LEVEL`]; nor do
/// packets, one after the other.
pub fn levels_never_fall_by()
    ensures packet { LowersNoLevelBy }
    ensures along { LowersNoLevelAlongBy }
{}

/// A packet changes the ends, and renews the state or, where it passes loosely, does not: then its class and its last use stay, so
/// that the class need not follow from the levels any more. Without the rule `loose` it renews the state. Packets, one after the
/// other, leave the rest: its name, its keys and all.
pub fn only_ends_move_by()
    ensures packet { EndsMoveBy }
    ensures renewed { AllRenewBy }
    ensures along { OnlyMotionBy }
{}

/// Whichever rules are the kernel's, what packets make of a state has levels and scales in their ranges, and all four ends of one
/// family and one protocol.
pub fn states_stay_states_by()
    ensures moved { StaysStateBy }
    ensures along { StaysStateAlongBy }
{}

/// A packet passes by that branch which its tests say, so what comes of it follows from them.
pub fn judgements_agree()
    ensures branch { JudgementsAgree }
    ensures outcome { OutcomesFollow }
{}

/// The rule `loose` takes nothing away, and `reset` adds nothing.
pub fn rules_add_and_refuse()
    ensures loose { LooseAdds }
    ensures reset { ResetRefuses }
{}

/// The rule `scale` bears on a SYN to an end that has offered a scale, and on no other packet. What it keeps in units of a scale is, at
/// that scale, the window that was offered, or less than one unit more.
pub fn scale_answers_offers()
    ensures answers { ScaleAnswersOffers }
    ensures units { UnitsCover }
{}

/// By the rule `window`, a packet without data is inside the window where what it acknowledges is near, if its sender's own numbers are
/// in order.
pub fn bare_acks_go_by_what_they_acknowledge()
    ensures { BareAcksByAck }
{}
