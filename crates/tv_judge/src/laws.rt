//! Laws of closed reports: functions that do nothing, and whose contracts are the laws.

ghost use Rattle.tv_judge.specs.Laws.{ClosedListingsAreClosedReports, ClosedReportsAreAccepted};

/// A closed listing without maps is a closed report.
pub fn closed_listings_are_closed_reports()
    ensures { ClosedListingsAreClosedReports }
{}

/// A closed report whose steps keep the budgets is accepted, or memory is wanting.
pub fn closed_reports_are_accepted()
    ensures { ClosedReportsAreAccepted }
{}
