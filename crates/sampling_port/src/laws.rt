//! Laws of the calls of every port. Each function does nothing: its contract is the law.
ghost use Rattle.sampling_port.specs.Lists.{CallsAreLists};
ghost use Rattle.sampling_port.specs.Laws.{CallsArePermitted, FieldsAreReadOnce, PortsFollowCalls};
ghost use Rattle.sampling_port.specs.Lawful.{HasOneHistory};
ghost use Rattle.sampling_port.specs.History.{HistoryIsLawful};
ghost use Rattle.sampling_port.specs.HistoryLaws.{NumbersNeverFall, GotIsPublished, LooksCountPublishes, ZeroIsNothing, NothingIsUnpublished, AgainIsLater, HonestIsNotRefused};

/// Law: a publish writes its own section alone. A sample reads only the section of the peer that it
/// samples, for all values read.
pub fn calls_are_permitted()
    ensures { CallsArePermitted }
{}

/// Law: a sample reads the length and each word of the message once. It reads the sequence once
/// before them and once after.
// claim with calls_are_lists, ports_follow_calls: A sample reads each word of the message once,
//    over any values. Calls are the table's lists, and ports follow them.
pub fn fields_are_read_once()
    ensures { FieldsAreReadOnce }
{}

/// Law: a port follows its call step by step, for all values handed to `took`, and follows nothing
/// else.
pub fn ports_follow_calls()
    ensures { PortsFollowCalls }
{}

/// Law: a list of steps is a whole publish or a whole sample exactly if the table of calls has it.
pub fn calls_are_lists()
    ensures { CallsAreLists }
{}

/// Law: a schedule has at most one lawful history. The schedule and the values read decide each
/// next line.
// claim with history_is_lawful: A schedule has one lawful history: its events, reads of what was
//    written last, writes where the peer may write, and each peer's calls in order.
pub fn one_history()
    ensures { HasOneHistory }
{}

/// Law: a schedule has a lawful history, which `specs/History` computes.
pub fn history_is_lawful()
    ensures { HistoryIsLawful }
{}

/// Law: in a lawful history the numbers of the messages that a reader got from a writer never fall.
// claim: The numbers of the messages that a reader got of a writer never fall.
pub fn numbers_never_fall()
    ensures { NumbersNeverFall }
{
    one_history();
    history_is_lawful();
}

/// Laws of an honest writer. A sample that got a message got the one published last before its
/// first look, with the bytes of that message. A look reads the number of messages published. The
/// mark `none` occurs exactly if there are none. An honest writer is never refused.
// claim got, looks, zero, nothing, again, refused: What a reader got of an honest writer is the
//    message published last before its first look, whole. A look gives how many messages were
//    published; `none` comes exactly if a look gives 0; after `again` the number has risen; an
//    honest writer is never refused.
pub fn samples_are_published()
    ensures got { GotIsPublished }
    ensures looks { LooksCountPublishes }
    ensures zero { ZeroIsNothing }
    ensures nothing { NothingIsUnpublished }
    ensures again { AgainIsLater }
    ensures refused { HonestIsNotRefused }
{
    one_history();
    history_is_lawful();
}
