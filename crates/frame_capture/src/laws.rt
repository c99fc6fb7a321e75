//! Laws of all capture files. Each function does nothing: its contract is the law.
ghost use Rattle.frame_capture.specs.Laws.{FileIsOfOneCapture, FaultsAreOfNoFile, FaultsAreOne, FramesAreDelivered};

/// Law: bytes are a file of at most one capture. So what is printed of a capture is read as that
/// capture.
pub fn file_is_of_one_capture()
    ensures { FileIsOfOneCapture }
{}

/// Law: bytes with a fault are no file, and have no other fault.
pub fn faults_are_exact()
    ensures no_file { FaultsAreOfNoFile }
    ensures one { FaultsAreOne }
{}

/// Law: the frames of a history's capture are those that the history delivers to the peer, in their
/// order.
pub fn frames_are_delivered()
    ensures { FramesAreDelivered }
{}
