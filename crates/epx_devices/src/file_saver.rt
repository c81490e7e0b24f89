//! A saver of files of the system.
ghost use Rattle.std.specs.Prelude.{OnOk};
ghost use Rattle.epx_devices.specs.DeviceStates.{HasAccepted, WriterState, file_saver};

use crate::device::DeviceFault;
use crate::saver::Saver;
use crate::std_sink::StdSink;
use crate::transfer::write_out;
use std::alloc::{AllocError, AllocGlobal};
use std::fs;
use std::fs::OpenFile;
use std::io::ErrorKind;
use std::path::Path;
use std::random::RandomSource;
use std::rt::Files;

/// Saves files of the system: each under a new name, which is renamed once its bytes are on the
/// disk. So after a crash the path has the old bytes or the new ones. Only if the disk fails after
/// that, a call fails although the path has the new bytes.
#[derive(Drop)]
pub struct FileSaver<'a, R> {
    system: &'a R,
}

impl<'a, R> FileSaver<'a, R> {
    /// A saver of files of this system.
    pub fn new(system: &'a R) -> FileSaver<'a, R> {
        FileSaver { system }
    }
}

/// Whether nothing is at the path, or a plain file. A device, a pipe or a link is not replaced.
fn can_be_replaced<R: Files>(system: &R, path: &str) -> bool {
    match fs::symlink_metadata(system, path) {
        Ok(found) => found.is_file(),
        Err(error) => error.kind() == ErrorKind::NotFound,
    }
}

/// A new name in the folder of the path.
fn new_name<R: RandomSource + AllocGlobal>(system: &R, path: &str) -> Result<String, DeviceFault> {
    let mut number = [0; 8];
    if system.fill_bytes(&mut number).is_err() {
        return Err(DeviceFault);
    }
    let number = u64::from_le_bytes(number);
    match format!(in system.alloc(); "{path}.{number}.new") {
        Ok(name) => Ok(name),
        Err(AllocError) => Err(DeviceFault),
    }
}

/// Fills a new file with the bytes, and waits until they are on the disk.
fn fill_new<R: Files>(system: &R, name: &str, bytes: &[u8]) -> Result<(), DeviceFault>
    ensures { OnOk result ((file : WriterState R.File) × HasAccepted file bytes.now) }
{
    let Ok(file) = fs::File::create_new(system, name) else {
        return Err(DeviceFault);
    };
    let mut sink = StdSink::new(file);
    let Ok(()) = write_out(bytes, &mut sink) else {
        return Err(DeviceFault);
    };
    match sink.writer().sync_all() {
        Ok(()) => Ok(()),
        Err(_) => Err(DeviceFault),
    }
}

/// Fills a new file with the bytes, and gives it the path.
fn replace_by<R: Files>(system: &R, name: &str, path: &str, bytes: &[u8]) -> Result<(), DeviceFault>
    ensures { OnOk result ((file : WriterState R.File) × HasAccepted file bytes.now) }
{
    fill_new(system, name, bytes)?;
    match fs::rename(system, name, path) {
        Ok(()) => Ok(()),
        Err(_) => Err(DeviceFault),
    }
}

/// The folder of the path.
fn folder_of(path: &str) -> &str {
    match Path::new(path).parent() {
        Some(folder) if !folder.as_str().is_empty() => folder.as_str(),
        _ => ".",
    }
}

impl<R: AllocGlobal + Files + RandomSource> Saver for FileSaver<'_, R> {
    ghost model = { file_saver R.File };

    fn save(&mut self, path: &str, bytes: &[u8]) -> Result<(), DeviceFault> {
        if !can_be_replaced(self.system, path) {
            return Err(DeviceFault);
        }
        let Ok(folder) = fs::open(self.system, folder_of(path)) else {
            return Err(DeviceFault);
        };
        let name = new_name(self.system, path)?;
        let Ok(()) = replace_by(self.system, name.as_str(), path, bytes) else {
            // What is left of the new file is of no use.
            let _ = fs::remove_file(self.system, name.as_str());
            return Err(DeviceFault);
        };
        // The name is on the disk once the folder is.
        match folder.sync_all() {
            Ok(()) => Ok(()),
            Err(_) => Err(DeviceFault),
        }
    }
}
