// Unit attention conditions that are pending for an initiator (SAM-5, 5.14).
use sg_units::{Attentions, UnitAttention};
use sg_wire::Initiator;
use std::test::Fail;

const POWER_ON: Option<(u8, u8)> = Some((0x29, 0x00));

const MODE_PARAMETERS_CHANGED: Option<(u8, u8)> = Some((0x2A, 0x01));

#[derive(Clone, Copy)]
enum Change {
    Nothing,
    /// Raises MODE PARAMETERS CHANGED.
    Raise,
    ClearOldest,
    PowerCycle,
}

use Change::{ClearOldest, Nothing, PowerCycle, Raise};

/// Changes for initiators, and the oldest condition that is pending for each then. A condition that
/// is raised is pending after POWER ON, once, and only for this initiator. After a power cycle only
/// POWER ON is pending, even if other conditions were.
const CHANGES: [(Change, u8, Option<(u8, u8)>); 12] = [
    (Nothing, 1, POWER_ON),
    (Raise, 1, POWER_ON),
    (Raise, 1, POWER_ON),
    (ClearOldest, 1, MODE_PARAMETERS_CHANGED),
    (ClearOldest, 1, None),
    (ClearOldest, 7, None),
    (Raise, 1, MODE_PARAMETERS_CHANGED),
    (Nothing, 7, None),
    (PowerCycle, 1, POWER_ON),
    (Nothing, 7, POWER_ON),
    (ClearOldest, 1, None),
    (ClearOldest, 7, None),
];

fn oldest(attentions: &Attentions, initiator: Initiator) -> Option<(u8, u8)> {
    Some(attentions.oldest(initiator)?.code())
}

fn make_change(attentions: &mut Attentions, change: Change, initiator: Initiator) {
    match change {
        Nothing => (),
        Raise => attentions.raise(initiator, UnitAttention::ModeParametersChanged),
        ClearOldest => attentions.clear_oldest(initiator),
        PowerCycle => attentions.clear_to_power_on(),
    }
}

#[test]
fn conditions_are_pending_in_their_order(rt: HostRuntime) -> Result<(), Fail> {
    let mut attentions = Attentions::new();
    for (made, number, code) in &CHANGES {
        let initiator = Initiator::new(*number).ok_or("no initiator")?;
        make_change(&mut attentions, *made, initiator);
        assert!(rt; oldest(&attentions, initiator) == *code);
    }
    Ok(())
}
