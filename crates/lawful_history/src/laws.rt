//! The laws of every lawful history. Each law is the contract of a function with an empty body.
ghost use Rattle.lawful_history.specs.Lawful.{HasMarksInTwo, HasNoMarksInOne, HasOneHistory, HasOneHistoryIn, HasRecordInTwo, ReadsWhatWasWritten, WritesWhereItMay};
ghost use Rattle.lawful_history.specs.History.{CutHistoriesBegin, HistoryIsLawful, HistoryIsLawfulIn, PeersKeepOrder};

use call_grammar::calls_are_permitted;

/// Law: a scenario has at most one lawful history: the schedule and the values read determine each
/// next line.
// top claim: A scenario has at most one lawful history. below: lawful_history.history_is_lawful,
//    lawful_history.records_hold_one_history.one
pub fn one_history()
    ensures { HasOneHistory }
{}

/// Law: a scenario has a lawful history, which `specs/History` computes.
// claim: Every scenario has a lawful history, and `history` computes it.
pub fn history_is_lawful()
    ensures { HistoryIsLawful }
{
    calls_are_permitted();
}

/// Law: for each version a scenario has exactly one list of lines that a record may have.
// claim one, recorded: A record of either version holds exactly one history of its scenario.
pub fn records_hold_one_history()
    ensures one { HasOneHistoryIn }
    ensures recorded { HistoryIsLawfulIn }
{
    one_history();
    history_is_lawful();
}

/// Law: records of the two versions differ only in the marks of sessions. Version 1 has the lawful
/// history, version 2 the same history with the marks of its sessions.
// claim first, second, each: Version 1 of a record holds the lawful history as it is, without a
//    mark of a session. Version 2 holds the same history with the mark of a session right before
//    the `over` of each step that enters RUN, and nothing else.
pub fn versions_differ_in_marks()
    ensures first { HasNoMarksInOne }
    ensures second { HasMarksInTwo }
    ensures each { HasRecordInTwo }
{}

/// Law: the peers of the computed history follow the order of their calls. First come the calls
/// queued since the last reset, in order. Then come the calls that the rule of an automatic end
/// chooses, from the call before.
// claim: What the computed history keeps of a peer follows the order of its calls at each event:
//    the calls asked for since the last reset, in order, and those that the rule of an automatic
//    peer chooses by the call before.
pub fn peers_keep_order()
    ensures { PeersKeepOrder }
{}

/// Law: of two lawful histories one begins the other if the schedule of one begins the schedule of
/// the other.
// claim: If the schedule of a scenario begins that of another with the same head, its history
//    begins the other's.
pub fn cut_histories_begin()
    ensures { CutHistoriesBegin }
{
    one_history();
    history_is_lawful();
}

/// Law: the value that a peer read is the last value written, and a peer writes only words that it
/// may write.
// claim reads: A peer read what was written last, or 0 if nothing was.
// top claim writes: A peer's writes lie in its own section or in the common one. below:
//    lawful_history.memory_is_kept.reads, section_map.Region.write.allowed
pub fn memory_is_kept()
    ensures reads { ReadsWhatWasWritten }
    ensures writes { WritesWhereItMay }
{}
