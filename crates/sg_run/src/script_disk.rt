// What a script runs on.
ghost use Rattle.std.specs.Prelude.{◌≡◌, false};

use sg_store::Store;
use sg_target::{DeviceServer, Target};

/// A device server that can tell whether what keeps its disk has failed. Then a line says so at once,
/// although no initiator is there to get a sense code.
pub trait ScriptDisk: DeviceServer {
    /// Whether what keeps the disk has failed.
    fn has_failed(&self) -> bool
        ensures { Self.works self.now → result ≡ false };
}

/// A disk in memory never fails.
impl<S: Store> ScriptDisk for Target<S> {
    fn has_failed(&self) -> bool {
        false
    }
}
