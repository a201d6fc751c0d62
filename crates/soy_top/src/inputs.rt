//! The inputs of a command: the contents of its template files, and of those before them.

ghost use Rattle.std.specs.Prelude.{◌≡◌, length, option_map};
ghost use Rattle.soy_front.specs.ViewSources.{view_contents};
ghost use Rattle.soy_top.specs.Asked.{source_files};
ghost use Rattle.soy_top.specs.Inputs.{bundle_content, but_last, last, second_number};
ghost use Rattle.soy_top.specs.Numbered.{numbered};
ghost use Rattle.soy_top.specs.View.{view_command};
ghost use Rattle.soy_top.specs.Words.{command_words};

use crate::command::Command;
use crate::wanted::is_source_language;
use soy_front::Source;

/// The names of the template files of a command that are accepted together.
pub(crate) fn source_names(command: Command<'_>) -> &[String]
    ensures { command_words result.now ≡ source_files (view_command command.entry) }
{
    match command {
        Command::Render { files, .. } => files,
        Command::Check { files, .. } => files,
        Command::Extract { files } => files,
        Command::Gen { .. } => &[],
        Command::Play { files, .. } => files,
        Command::Preview { files, .. } => files,
        Command::Format { .. } => &[],
    }
}

/// The last so many contents, or all where there are fewer.
pub(crate) fn last(contents: &[Source], count: usize) -> &[Source]
    ensures { view_contents result.now ≡ last count (view_contents contents.now) }
{
    &contents[contents.len().saturating_sub(count)..]
}

/// The contents before the last so many.
pub(crate) fn but_last(contents: &[Source], count: usize) -> &[Source]
    ensures { view_contents result.now ≡ but_last count (view_contents contents.now) }
{
    &contents[..contents.len().saturating_sub(count)]
}

/// The content of a number, or an empty one where there are fewer.
pub(crate) fn content_at(contents: &[Source], number: usize) -> &[u8]
    ensures { result.now ≡ numbered number (view_contents contents.now) }
{
    match contents.get(number) {
        Some(source) => source.bytes.items(),
        None => b"",
    }
}

/// The content of a bundle, which is that of this number; the bundle `-` is no file.
pub(crate) fn bundle_content<'a>(
    bundle: &str,
    number: usize,
    before: &'a [Source],
) -> Option<&'a [u8]>
    ensures { option_map (λ b. b.now) result ≡ bundle_content bundle.now number (view_contents before.now) }
{
    if is_source_language(bundle) {
        None
    } else {
        Some(content_at(before, number))
    }
}

/// The number of the content of the second bundle of a `play`.
pub(crate) fn second_number(first: &str) -> usize
    ensures { result ≡ second_number first.now }
{
    if is_source_language(first) { 1 } else { 2 }
}
