//! Laws of the statuses.
ghost use Rattle.c_status.specs.Statuses.{NumbersDetermineStatuses};

/// Law: two different statuses of one library have different numbers. The numbers of an empty
/// handle, and of one that isn't empty, are the same in both libraries.
// claim: No two statuses of one library have the same number.
pub fn numbers_determine_statuses()
    ensures { NumbersDetermineStatuses }
{}
