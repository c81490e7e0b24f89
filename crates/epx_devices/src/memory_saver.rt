//! A saver in memory, whose files are known.
ghost use Rattle.std.specs.Prelude.{◌≡◌, [], ◌∷◌, ◌++◌, map, string_bytes, OnOk, OnErr};
ghost use Rattle.epx_devices.specs.MemoryDevices.{memory_saver};

use crate::device::DeviceFault;
use crate::saver::Saver;
use std::alloc::{AllocError, Global};
use std::marker::Model;

/// Keeps all that it saves, the latest last. It fails if there are more bytes than it has room for,
/// or if an allocation fails.
#[derive(Drop)]
pub struct MemorySaver {
    files: Vec<(String, Vec<u8>)>,
    room: usize,
}

impl Model for MemorySaver {
    ghost use Rattle.std.specs.Prelude.{map, string_bytes};
    ghost use Rattle.epx_devices.specs.MemoryDevices.{SaverState};

    ghost Value = { SaverState };

    ghost view = { λ s. record {
      files = map (λ f. (string_bytes f.0, f.1.items)) s.files.items;
      room = s.room;
    } };
}

impl MemorySaver {
    /// A saver that has saved nothing, with room for so many bytes each time.
    pub fn new(alloc: Global, room: usize) -> MemorySaver
        ensures { result ≡ record { files = []; room = room } }
    {
        MemorySaver {
            files: Vec::new(alloc),
            room,
        }
    }

    /// The paths under which it has saved, in that order, each with the bytes.
    pub fn files(&self) -> &[(String, Vec<u8>)]
        ensures { map (λ f. (string_bytes f.0, f.1.items)) result.now ≡ self.now.files }
    {
        &self.files
    }

    /// Keeps copies of the path and of the bytes.
    fn keep(&mut self, path: &str, bytes: &[u8]) -> Result<(), AllocError>
        ensures kept { OnOk result (self.new ≡ record self.old {
          files = self.old.files ++ (path.now, bytes.now) ∷ [];
        }) }
        ensures unchanged { OnErr result (self.new ≡ self.old) }
    {
        let alloc = *self.files.allocator();
        let path = String::from_str(alloc, path)?;
        let mut copy = Vec::with_capacity(alloc, bytes.len())?;
        copy.extend_from_slice(bytes)?;
        self.files.push((path, copy))?;
        Ok(())
    }
}

impl Saver for MemorySaver {
    ghost model = { memory_saver };

    fn save(&mut self, path: &str, bytes: &[u8]) -> Result<(), DeviceFault> {
        if bytes.len() > self.room || self.keep(path, bytes).is_err() {
            return Err(DeviceFault);
        }
        Ok(())
    }
}
