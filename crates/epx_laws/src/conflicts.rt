//! Laws of commands that conflict, and of those that do not.
ghost use Rattle.epx_laws.specs.ConflictLaws.{ConflictIsSymmetric, CommandsExchange};

/// Conflict is symmetric.
pub fn conflict_is_symmetric()
    ensures { ConflictIsSymmetric }
{}

/// Two commands that do not conflict can be exchanged.
pub fn commands_exchange()
    ensures { CommandsExchange }
{}
