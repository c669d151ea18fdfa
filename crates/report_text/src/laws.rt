//! What holds of the reports of every state.

ghost use Rattle.report_text.specs.Laws.{EqualStatesEqualReports, SameKnownEqualReports, JsonIsRead};

/// Equal states have equal reports. So have the states of sets that know the same operations, and
/// by the law `reached` of `Replica` each replica stands for such a state.
pub fn equal_reports()
    ensures states { EqualStatesEqualReports }
    ensures known { SameKnownEqualReports }
{}

/// The JSON report of every state is read as the value that it says.
pub fn json_is_read()
    ensures { JsonIsRead }
{}
