//! What the words of the operating system ask for.
ghost use Rattle.std.specs.Prelude.{◌≡◌, ◌≢◌, ◌⊎◌, IfErr, IfOk, IsErrOf};
ghost use Rattle.std.specs.IoError.{error_kind};
ghost use Rattle.epx_words.specs.Requests.{IfText, IsText};
ghost use Rattle.epx_program.specs.Calls.{AreTakenFor, Asks, IsFollow, NamesFollow};

use epx_tool::{Words, read_words};
use epx_types::Memory;
use std::alloc::Global;
use std::env::Args;
use std::io::{self, ErrorKind};

/// The text with status 2 for words of which one is not UTF-8. Words that cannot be read for any
/// other reason are out of memory.
fn refuse_words(alloc: Global, why: ErrorKind) -> Result<Words, Memory>
    ensures text { IfOk result (IsText 2) }
    ensures no_words { why ≢ ErrorKind.InvalidData → IsErrOf result (record {}) }
{
    if why != ErrorKind::InvalidData {
        return Err(Memory);
    }
    let text = String::from_str(alloc, "epx: a word is not UTF-8\n")?;
    Ok(Words::Text { text, status: 2 })
}

/// What the words ask for. If a word is not UTF-8, it is a text with status 2.
pub(crate) fn read_args(alloc: Global, words: io::Result<Args>) -> Result<Words, Memory>
    ensures read_args { (texts : _) → AreTakenFor words texts → IfOk result (Asks texts) }
    ensures follow { IfOk result (λ wanted. IsFollow wanted → NamesFollow words) }
    ensures status { IfOk result (IfText (λ status. (status ≡ 0) ⊎ (status ≡ 2))) }
    ensures no_text { IfErr words (λ error. error_kind error ≡ ErrorKind.InvalidData
        → IfOk result (IsText 2)) }
    ensures no_words { IfErr words (λ error. error_kind error ≢ ErrorKind.InvalidData
        → IsErrOf result (record {})) }
{
    let given = match words {
        Ok(given) => given,
        Err(error) => return refuse_words(alloc, error.kind()),
    };
    let mut owned = Vec::new(alloc);
    for word in given {
        owned.push(word)?;
    }
    let mut texts = Vec::new(alloc);
    for text in &owned {
        texts.push(text.as_str())?;
    }
    read_words(alloc, &texts)
}
