//! A law of trails to messages. Its function does nothing: its clause is what it shows.

ghost use Rattle.tv_trail.specs.Laws.{TrailsLeadToLines};

/// Where an analysis ends, its report has a line on each message to which a trail leads, with the value that
/// the message has at the trail's end.
pub fn trails_lead_to_lines()
    ensures { TrailsLeadToLines }
{}
