// Commands while faults are armed that meet each command of each initiator.
use crate::TestDisk;
use crate::ending::Ending;
use sg_faults::{Afterwards, AtMedium, Fault, OnArrival, Outcome, SenseCode};
use sg_target::Happening;
use sg_units::Initiators;

impl TestDisk {
    /// Executes a command with faults at the medium and afterwards, and then with a fault on
    /// arrival, too. Returns whether the first two meet it only if it ends with GOOD, and the last
    /// one always.
    pub(crate) fn ends_with_faults(&mut self, cdb: &[u8], data_out: &[u8], ending: Ending) -> bool {
        if !matches!(ending, Ending::Good) {
            self.arm_at_medium();
        }
        self.arm(Outcome::Afterwards(Afterwards::NoReply));
        let ends_late = self.ends_plainly(cdb, data_out, ending.without_reply());
        self.arm(Outcome::OnArrival(OnArrival::Busy));
        let ends_early = self.ends_plainly(cdb, data_out, Ending::Busy);
        self.target.happen(Happening::DisarmAll);
        ends_late && ends_early
    }

    /// Arms MEDIUM ERROR, UNRECOVERED READ ERROR.
    fn arm_at_medium(&mut self) {
        if let Some(code) = SenseCode::new(0x03, 0x11, 0x00) {
            self.arm(Outcome::AtMedium(AtMedium::CheckCondition(code)));
        }
    }

    fn arm(&mut self, outcome: Outcome) {
        self.target.happen(Happening::Arm(Fault {
            initiators: Initiators::all(),
            code: None,
            blocks: None,
            skip: 0,
            times: None,
            outcome,
        }));
    }
}
