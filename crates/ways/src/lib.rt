// A window visited by any way. The way is a case here and nowhere above: start and move by the way, over the one record of a visit.
#![tactic(auto)]

pub mod dispatch;
