// Laws of lists of alarms.

ghost use Rattle.alarm_claims.specs.Analyzed.{AnalysesAreWhole};
ghost use Rattle.alarm_claims.specs.Forms.{FormsAreApart};
ghost use Rattle.alarm_claims.specs.Wider.{GainsAreAdmitted, HoldingAlarmsAreAdmitted, ServingAlarmsTell};

/// Where a list of alarms tells of each failing check and no two alarms are alike, each alarm of a failing check's chain, place and kind
/// shows its operand, and its facts hold there.
pub fn analyses_are_whole()
    ensures { AnalysesAreWhole }
{}

/// Nothing that is shown holds both one pointer and two.
pub fn forms_are_apart()
    ensures { FormsAreApart }
{}

/// An alarm that serves for another tells of each failure that the other tells of.
pub fn serving_alarms_tell()
    ensures { ServingAlarmsTell }
{}

/// An alarm that holds an admitted one is admitted.
pub fn holding_alarms_are_admitted()
    ensures { HoldingAlarmsAreAdmitted }
{}

/// What a walk gains that begins with an empty list is admitted.
pub fn gains_are_admitted()
    ensures { GainsAreAdmitted }
{}
