// Rooms that are computed by the definitions.
#![tactic(auto)]

ghost use Rattle.test_rooms.specs.Starred.{Starred};

// It does nothing: that 01's twelve starred rooms are as 01 says, as one table, is its contract.
fn known_rooms()
    ensures { Starred }
{}
