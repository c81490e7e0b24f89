//! The sources that the paths name: files, and the program's input.
ghost use Rattle.std.specs.Prelude.{◌≡◌, All, IfOk, IfSome, false, map, string_bytes};
ghost use Rattle.epx_program.specs.SourcesAt.{AreSourcesAt, IsSourceAt, model_at};

use epx_devices::{EitherSource, KeptSource, MemorySource, Opener, PathSource, Source};
use std::alloc::{AllocError, Global};
use std::fs;
use std::rt::Files;

/// The path that means the input.
const INPUT: &str = "-";

/// A source at a path: a file, the input, or, where the input is named again, an empty source.
pub(crate) type Input<'a, O, I> = EitherSource<
    PathSource<'a, O>,
    EitherSource<I, MemorySource<'static>>,
>;

/// Whether the path leads to a file that can be read again. A pipe gives its bytes only once.
fn can_be_read_again<R: Files>(rt: &R, path: &str) -> bool {
    match fs::metadata(rt, path) {
        Ok(data) => path != INPUT && data.is_file(),
        Err(_) => false,
    }
}

/// The source at a path. The first hyphen takes the input.
pub(crate) fn source_at<'a, O: Opener, I: Source>(
    opener: &'a O,
    path: &'a str,
    input: &mut Option<I>,
) -> Input<'a, O, I>
    requires { IfSome input.old (λ i. I.model.has_failed i ≡ false) }
    ensures at { IsSourceAt opener.now path.now input.old input.new result }
    ensures failed { (model_at O.model O.Opened.model I.model).has_failed result ≡ false }
    ensures left { IfSome input.new (λ i. I.model.has_failed i ≡ false) }
{
    if path != INPUT {
        return EitherSource::First(PathSource::new(opener, path));
    }
    match input.take() {
        Some(given) => EitherSource::Second(EitherSource::First(given)),
        None => EitherSource::Second(EitherSource::Second(MemorySource::new(&[]))),
    }
}

/// A source for each path, whose file the opener opens at the first read. With `keeps` the bytes
/// that can be read only once are kept.
pub(crate) fn sources_at<'a, R: Files, O: Opener, I: Source + Drop>(
    rt: &R,
    opener: &'a O,
    alloc: Global,
    paths: &'a [String],
    keeps: bool,
    input: Option<I>,
) -> Result<Vec<KeptSource<Input<'a, O, I>>>, AllocError>
    requires { IfSome input (λ i. I.model.has_failed i ≡ false) }
    ensures at { IfOk result (λ sources. (left : _)
        × AreSourcesAt opener.now input left (map string_bytes paths.now) sources.items) }
    ensures failed { IfOk result
        (λ sources. All (λ s. (model_at O.model O.Opened.model I.model).has_failed s ≡ false)
        sources.items) }
{
    let mut input = input;
    let mut sources = Vec::with_capacity(alloc, paths.len())?;
    for path in paths {
        let source = source_at(opener, path.as_str(), &mut input);
        let keeps_it = keeps && !can_be_read_again(rt, path.as_str());
        sources.push(KeptSource::new(alloc, source, keeps_it))?;
    }
    Ok(sources)
}
