//! Laws of the tables, stated as proved contracts of empty functions.

ghost use Rattle.dfu_conformance.specs.Laws.{TwoMovesAreOne, MovedRunIsRun};

/// If a device may reach a state in two moves by itself, it may reach it in one. A run needs at most one such move between two events.
pub fn moves_are_closed()
    ensures twice { TwoMovesAreOne }
    ensures moved_run { MovedRunIsRun }
{}
