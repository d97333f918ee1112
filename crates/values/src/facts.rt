// A worked case, settled by the contract of a function.
ghost use Rattle.values.specs.Facts.{LaterRegisterWins};

pub fn later_register_wins()
    ensures { LaterRegisterWins }
{}
