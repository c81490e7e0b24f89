//! Texts that were made, if memory sufficed.
ghost use Rattle.std.specs.Prelude.{Ok, ◌≡◌, IfErr, IfOk, IsErr, IsSomeAnd};

use epx_types::Memory;
use std::alloc::AllocError;

/// Returns the text, or that memory ran out while it was made.
pub fn made(text: Result<String, AllocError>) -> Result<String, Memory>
    ensures ok { IfOk result (λ made. text ≡ Ok made) }
    ensures err { IfErr result (λ _. IsErr text) }
{
    Ok(text?)
}

/// Returns the text as one that explains something, or that memory ran out while it was made.
pub fn found(text: Result<String, AllocError>) -> Result<Option<String>, Memory>
    ensures ok { IfOk result (λ found. IsSomeAnd found (λ made. text ≡ Ok made)) }
    ensures err { IfErr result (λ _. IsErr text) }
{
    Ok(Some(text?))
}
