//! What saves bytes under paths.
ghost use Rattle.std.specs.Prelude.{OnOk, OnErr};
ghost use Rattle.epx_devices.specs.Models.{SaverModel};

use crate::device::DeviceFault;

/// Saves bytes under paths, all of them or none.
pub trait Saver {
    // What is known of the saver. Generic code can get the facts `saves` and `refuses` only from a
    // call of `save`.
    ghost model: { SaverModel Self };

    /// Saves the bytes under the path, in place of what was there. If this fails, what was there
    /// stays.
    fn save(&mut self, path: &str, bytes: &[u8]) -> Result<(), DeviceFault>
        ensures saved { OnOk result (model.saves self.old path.now bytes.now self.new) }
        ensures refused { OnErr result (model.refuses self.old path.now bytes.now self.new) };
}
