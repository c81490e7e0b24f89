//! Names of instances, and numbers.
ghost use Rattle.std.specs.Prelude.{ℕ, ◌≡◌, ◌≢◌, ◌^◌, ◌<◌, decimal, IfNone, IfSome};
ghost use Rattle.epx_types.specs.Faults.{id_text};
ghost use Rattle.epx_types.specs.declared.id.Id.{Id};
ghost use Rattle.epx_names.specs.IdNames.{FitsIdTypes};

use epx_types::Id;

/// Reads a number in the decimal form in which numbers are printed: without a sign or zeros in
/// front. None if the text is no such number below 2^64.
pub fn read_number(text: &str) -> Option<u64>
    ensures some { IfSome result (λ n. text.now ≡ decimal n) }
    ensures none { IfNone result ((n : ℕ) → n < 2 ^ 64 → text.now ≢ decimal n) }
{
    let first = *text.as_bytes().first()?;
    if first == b'+' {
        return None;
    }
    if first == b'0' && text.len() > 1 {
        return None;
    }
    text.parse::<u64>().ok()
}

/// Reads the name of an instance: its replica, a dot and its number, as `0.7`, in the decimal form
/// in which faults name it, without a sign or zeros in front. None if the text is no such name.
pub fn read_id(text: &str) -> Option<Id>
    ensures some { IfSome result (λ x. text.now ≡ id_text x) }
    ensures none { IfNone result ((x : Id) → FitsIdTypes x → text.now ≢ id_text x) }
{
    let (replica, number) = text.split_once('.')?;
    let replica = u8::try_from(read_number(replica)?).ok()?;
    let number = read_number(number)?;
    Some(Id { replica, number })
}
