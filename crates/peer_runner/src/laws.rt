//! Laws of the words and of the lists of memory operations, between any two accesses of any threads
//! (`specs/RunningLaws`). The functions here do nothing: the contract of each one is a law.
ghost use Rattle.peer_runner.specs.RunningLaws.{WordsAreMade, AllWordsAreMade, StoresAreOwned, InterruptsAreRung, DoorbellsStaySet};
ghost use Rattle.peer_runner.specs.RunningLaws.{OfEachHonest, OfTwoHonest, AccessesAreCalls, WordsAreWritten, WordsFollowPhases, FlightIsSpelled};
ghost use Rattle.peer_runner.specs.RunningLaws.{OpenOfferStores, ReadValuesAreInRange, NeverRefuses, OtherOpensNoSession, SessionWordsAreNumbers};
ghost use Rattle.peer_runner.specs.RunningLaws.{HostileSessionsAreNone, SessionsArePaired, WhereEitherAttends, PairInvariant, AskedIsRung};
ghost use Rattle.peer_runner.specs.RunningLaws.{ReadValuesAreAsSent, HostileWordsAreFree};

/// The memory operations of all lists, one after another in some order, made the words of the
/// region and of the sessions.
// claim with stores_are_owned: At each moment the words of the region and the session words are
//    what the memory operations of all lists, in some order, made of them. Each store in a list is
//    to a word that its peer may write.
pub fn words_are_made()
    ensures { WordsAreMade }
{}

/// All words of the table are what the actions of all lists made of the first words, one after
/// another in some order. Each ring set its bit. Each look found the word of its own peer and left
/// 0. Each clear found the target's Interrupt Control and left it without bit 0.
// claim: At each moment all words are what the actions of all lists, in some order, made of those
//    at the start. A ring set its bit of the target's interrupt word; a look found what stood in
//    the own one and left 0; a clear found the target's Interrupt Control and left it without bit
//    0.
pub fn all_words_are_made()
    ensures { AllWordsAreMade }
{}

/// Each store of a peer is to a word that it may write.
pub fn stores_are_owned()
    ensures { StoresAreOwned }
{}

/// Each interrupt that is found was rung. Interrupt Control is cleared once for each time that it
/// was set. A peer in one-shot mode is rung only after such a clear.
// claim: For each peer and each bit of its interrupt word, no more looks found the bit than rings
//    set it, and one fewer while it is set. Bit 0 of Interrupt Control and the clears that found it
//    set are as many as at the start. At a one-shot peer each ring follows such a clear of the same
//    list.
pub fn interrupts_are_rung()
    ensures { InterruptsAreRung }
{}

/// A bit that was rung is set until its target finds it, and Interrupt Control stays clear once it
/// was cleared.
// claim: For each peer and each bit of its interrupt word: if a peer rang it, it is set or a look
//    found it. Bit 0 of Interrupt Control that a peer cleared is not set.
pub fn doorbells_stay_set()
    ensures { DoorbellsStaySet }
{}

/// Each access in the list of an honest link peer is the next one of its calls.
// claim: Each access in the list of an honest link peer is the next one of its calls, at the place
//    where the accesses before it left the peer.
pub fn accesses_are_calls()
    ensures { OfEachHonest AccessesAreCalls }
{}

/// Each word of an honest link peer's section, and its state word, is what the peer's list of
/// memory operations wrote last, or 0. A reset writes 0 in the state word.
// claim: Each word of an honest link peer's section, and its state word, is what its list wrote
//    last, or 0, whatever hostile threads store.
pub fn words_are_written()
    ensures { OfEachHonest WordsAreWritten }
{}

/// The words of an honest link peer in each phase. It writes nothing in RESET. Its section is 0 in
/// READY, and as far as a tick has cleared it.
// claim: In RESET an honest link peer has written no word since its last State. A tick that clears
//    its section has left 0 in the words before the next one. In READY the section is 0, and
//    nothing is listed or counted.
pub fn words_follow_phases()
    ensures { OfEachHonest WordsFollowPhases }
{}

/// The frames of an honest link peer in flight are within the limit, and its section spells each of
/// them. This holds for all stores of the other peer.
// claim: The frames in flight of an honest link peer are within the limit. In a session its section
//    spells each of them, whatever the other stores, and a frame is in flight until its id was
//    read.
pub fn flight_is_spelled()
    ensures { OfEachHonest FlightIsSpelled }
{}

/// An open offer has stored only in the slot, the descriptor and the entry of its own frame. No
/// frame in flight has these.
// claim: An open offer is of the frame after those accepted. It has stored in the bytes of this
//    frame, in its descriptor and in its entry alone, and no frame in flight has that descriptor or
//    any of those bytes.
pub fn offers_store_apart()
    ensures { OfEachHonest OpenOfferStores }
{}

/// The values that an honest link peer has read and keeps are within the ranges of their fields, by
/// its checks alone.
// claim: What an open call of an honest link peer holds of the values it read is in range: the
//    index, the entry, the address and the length.
pub fn read_values_are_in_range()
    ensures { OfEachHonest ReadValuesAreInRange }
{}

/// Two honest link peers never refuse each other.
// claim: Two honest link peers never refuse each other.
pub fn honest_peers_never_refuse()
    ensures { OfTwoHonest NeverRefuses }
{}

/// While one of two honest link peers attends to the other's session, the other opens none.
// claim: While one of two honest link peers is in RUN or about to set it, the other is not in INIT
//    nor about to set it.
pub fn other_opens_no_session()
    ensures { OfTwoHonest OtherOpensNoSession }
{}

/// The session word of an honest link peer is the number of sessions that it opened, or one more,
/// which it stored since then.
// claim with hostile_sessions_are_none: The session word of an honest link peer is the number of
//    sessions that it opened, or one more, stored since its last State 2. In READY and RUN it is
//    the number opened. That of a hostile peer stays 0.
pub fn session_words_are_numbers()
    ensures { SessionWordsAreNumbers }
{}

/// The session word of a hostile link peer stays 0.
pub fn hostile_sessions_are_none()
    ensures { HostileSessionsAreNone }
{}

/// The sessions of two honest link peers are paired by their numbers, which rise. The frames
/// delivered in a session are the first ones accepted in the session that it carries.
// claim: Of two honest link peers, the numbers of the sessions that one carries rise, and are at
//    most those that the other opened. In RUN a peer carries the session that the other opened
//    last. Each session delivered a beginning of what was accepted in the one that it carries.
pub fn sessions_are_paired()
    ensures { SessionsArePaired }
{}

/// The relation between two honest link peers as soon as one is attached. The counts of frames are
/// in order, the delivered frames are the first ones accepted, and the words spell the frames in
/// flight.
// claim: As soon as one of two honest link peers is in RUN or about to set it, in either direction:
//    freed, returned, delivered and accepted follow one another within the limit. The frames
//    delivered are the first ones accepted, those not yet freed are spelled, and the used elements
//    name the descriptors in order.
pub fn pair_invariant_holds()
    ensures { OfTwoHonest (WhereEitherAttends PairInvariant) }
{}

/// In a link with events an honest link peer requests a doorbell at a frame from the other honest
/// one. No offer of that frame then ends without a doorbell. A request holds until the peer writes
/// its event word again, through State writes and resets. It names a frame of the session that the
/// peer carried at its look.
// claim: In a link with events, where the event word of one of two honest link peers, as it wrote
//    that word last, asks for a doorbell at a frame of the session that it carried then, the
//    other's offer of that frame has not ended without one, through State writes and resets of
//    both.
pub fn asked_doorbells_are_rung()
    ensures { OfTwoHonest AskedIsRung }
{}

/// The values that an open call of one of two honest link peers has read are what the other one has
/// written.
// claim: What an open call of one of two honest link peers holds is what the other has written for
//    that frame, and indexes count frames that were accepted or returned.
pub fn read_values_are_as_sent()
    ensures { OfTwoHonest ReadValuesAreAsSent }
{}

/// The words of a hostile peer may have any value below 2^32.
// claim: Each word of the region is below 2^32. Whatever such number a hostile peer stores in its
//    section or its state word, the rule is kept, and the lists of the others stay.
pub fn hostile_words_are_free()
    ensures { HostileWordsAreFree }
{}
