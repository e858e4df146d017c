//! Laws of the definitions: each is the contract of a function that does nothing.
ghost use Rattle.sg_faults.specs.Laws.{SparedInitiatorsMeetNoFault, UnarmedFaultsDoNothing};
ghost use Rattle.sg_faults.specs.Laws.{UnmetFaultsDoNothing};

/// If no fault is armed, no command meets one, and nothing is counted or healed.
pub fn unarmed_faults_do_nothing()
    ensures { UnarmedFaultsDoNothing }
{}

/// If nothing is left of any armed fault for an initiator, none does anything to its commands. So a
/// fault meets only commands of initiators that it names.
pub fn spared_initiators_meet_no_fault()
    ensures { SparedInitiatorsMeetNoFault }
{}

/// Faults that a command does not meet do nothing to it.
pub fn unmet_faults_do_nothing()
    ensures { UnmetFaultsDoNothing }
{}
