// Recordings, halts and stops: the subject's vocabulary stands in specs/. Here are its laws, each the contract of a
// function that does nothing, and what a report answers.
#![tactic(auto)]

ghost use Rattle.recording.specs.Answers.{ReportsAreLawful};
ghost use Rattle.recording.specs.EdgeList.{EdgesAreListed};
ghost use Rattle.recording.specs.Enumeration.{ChainsAreEnumerated};
ghost use Rattle.recording.specs.Reports.{ReportsAreStops, ReportsTellStops, SameThreadsList, SameThreadsReport, SameThreadsReply};
ghost use Rattle.recording.specs.SameThreads.{SameThreadsRenumber};
ghost use Rattle.recording.specs.Stops.{CirclesAreStops, CirclesAreStopsOf};

mod answer;
mod cause;

pub use answer::Answer;
pub use cause::SearchCause;

// The circles of closed chains of drawn edges are those in which the recording can stop.
pub fn circles_are_stops()
    ensures { CirclesAreStops }
{}

// The same of the edges that a set of lock events drew, and of halts that wait for events of that set.
pub fn circles_of_a_set_are_stops()
    ensures { CirclesAreStopsOf }
{}

// Recordings in which each thread does the same have the same edges and the same order of segments, up to the numbers of
// the segments.
pub fn same_threads_renumber()
    ensures { SameThreadsRenumber }
{}

// The list of a recording's edges has exactly those that it drew, and ascends.
pub fn edges_are_listed()
    ensures { EdgesAreListed }
{}

// The enumeration of the chains over rows has every chain once and nothing else.
pub fn chains_are_enumerated()
    ensures { ChainsAreEnumerated }
{}

// The circles of a report are those of closed chains. They ascend, and each stands once.
pub fn reports_are_lawful()
    ensures { ReportsAreLawful }
{}

// The circles of a report over a recording are those in which it can stop.
pub fn reports_are_stops()
    ensures { ReportsAreStops }
{}

// Two reports have the same circles exactly when the recordings can stop in the same circles.
pub fn reports_tell_stops()
    ensures { ReportsTellStops }
{}

// The edge lists of recordings in which each thread does the same agree place by place but for the segments.
pub fn same_threads_list()
    ensures { SameThreadsList }
{}

// So these recordings have the same chains, circles and answers.
pub fn same_threads_report()
    ensures { SameThreadsReport }
{}

// And the same replies.
pub fn same_threads_reply()
    ensures { SameThreadsReply }
{}
