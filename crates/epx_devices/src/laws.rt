//! Laws that show that the relations of sources mean what they should. Each function has an empty
//! body, and its contract is a law.
ghost use Rattle.epx_devices.specs.DeliveryLaws.{AllAreReturned, AllAreTheKnown, FileReturnsAll};
ghost use Rattle.epx_devices.specs.DeliveryLaws.{PathDeliversOpened};

use crate::device::Source;
use crate::opener::Opener;
use crate::path_source::PathSource;
use crate::std_source::StdSource;
use std::io::Read;
use std::rt::Files;

/// All bytes of a source whose bytes are known are those bytes, and no prefix of them.
pub fn all_are_the_known<S: Source>()
    ensures { AllAreTheKnown S.model }
{}

/// All bytes of a source at a path are all bytes of one file that its opener opened at that path,
/// from the opening on.
pub fn path_delivers_its_file<O: Opener>()
    ensures { PathDeliversOpened O.model O.Opened.model }
{}

/// All bytes of a reader are the bytes that it returned from then on, whether or not they were
/// known.
pub fn all_are_returned<R: Read>()
    ensures { AllAreReturned ⟦<StdSource<R> as Source>⟧.model }
{}

/// All bytes of a source over a file of the system are all that this file has returned since it
/// was opened.
pub fn file_returns_all<R: Files + 'static>()
    ensures { FileReturnsAll ⟦<PathSource<'static, R> as Source>⟧.model }
{}
