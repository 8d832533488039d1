// The worked cases.
ghost use Rattle.worked.specs.Cases.{CasesHold};

// A call that does nothing, and says that each case comes to what its table says.
pub fn worked_cases()
    ensures { CasesHold }
{}
