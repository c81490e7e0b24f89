//! Laws of what commands read and write.
ghost use Rattle.epx_laws.specs.CommandLaws.{WritesAreTheEffect, AbortLeavesContents};
ghost use Rattle.epx_laws.specs.CommandLaws.{AbortNamesIndex, WritesNameWrittenKeys};
ghost use Rattle.epx_laws.specs.CommandLaws.{NoKeyWrittenTwice, TouchedKeysDecide, KeysRise};

/// The contents after a command are those before it with its writes applied, one after another.
pub fn writes_are_the_effect()
    ensures { WritesAreTheEffect }
{}

/// An aborted command leaves the contents unchanged and writes nothing.
pub fn abort_leaves_contents()
    ensures { AbortLeavesContents }
{}

/// An abort names the index of an operation, and the operations before it succeed.
pub fn abort_names_index()
    ensures { AbortNamesIndex }
{}

/// The keys of a command's writes are written keys of the command.
pub fn writes_name_written_keys()
    ensures { WritesNameWrittenKeys }
{}

/// A command writes no key twice.
pub fn no_key_written_twice()
    ensures { NoKeyWrittenTwice }
{}

/// Over contents that agree on its touched keys, a command has the same reply and the same writes.
pub fn touched_keys_decide()
    ensures { TouchedKeysDecide }
{}

/// The rising keys of a list are its distinct keys.
pub fn keys_rise()
    ensures { KeysRise }
{}
