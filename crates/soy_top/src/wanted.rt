//! The files that a command wants.

ghost use Rattle.std.specs.Prelude.{◌≡◌, [], ◌++◌, map, IfOk, OnOk};
ghost use Rattle.soy_top.specs.FilesWanted.{asked_files, bundle_files, data_file, is_source_language, play_files};
ghost use Rattle.soy_top.specs.FilesWanted.{render_files, source_file};
ghost use Rattle.soy_top.specs.View.{view_command, view_file, view_files};
ghost use Rattle.soy_top.specs.Words.{command_words};

use crate::command::Command;
use soy_base::OutOfMemory;
use std::alloc::Global;

/// The most bytes of a FILE.
const SOURCE_LIMIT: usize = 1_048_576;

/// The most bytes of a DATA, a BUNDLE or a SCRIPT.
const DATA_LIMIT: usize = 4_194_304;

/// A file that is wanted: its name, and the most bytes that it may have.
#[derive(Clone, Copy)]
pub(crate) struct FileWanted<'a> {
    pub(crate) name: &'a str,
    pub(crate) limit: usize,
}

/// A FILE.
fn source_file(name: &str) -> FileWanted<'_>
    ensures { view_file result ≡ source_file name.now }
{
    FileWanted {
        name,
        limit: SOURCE_LIMIT,
    }
}

/// A DATA, a BUNDLE or a SCRIPT.
fn data_file(name: &str) -> FileWanted<'_>
    ensures { view_file result ≡ data_file name.now }
{
    FileWanted {
        name,
        limit: DATA_LIMIT,
    }
}

/// Whether a BUNDLE is the source language, and so no file.
pub(crate) fn is_source_language(bundle: &str) -> bool
    ensures { result ≡ is_source_language bundle.now }
{
    bundle == "-"
}

/// The files that a command wants, in the order of its words.
pub(crate) fn wanted_files<'a>(
    alloc: Global,
    command: Command<'a>,
) -> Result<Vec<FileWanted<'a>>, OutOfMemory>
    ensures { IfOk result (λ wanted. view_files wanted.items ≡ asked_files (view_command command.entry)) }
{
    let mut wanted = Vec::new(alloc);
    match command {
        Command::Render {
            data_file,
            bundle,
            files,
            ..
        } => push_render(&mut wanted, data_file, bundle, files)?,
        Command::Check { bundle, files } => push_sources(&mut wanted, bundle, files)?,
        Command::Extract { files } => push_files(&mut wanted, files)?,
        Command::Gen { .. } => {}
        Command::Play {
            script,
            first,
            second,
            files,
        } => push_play(&mut wanted, script, first, second, files)?,
        Command::Preview {
            data_file,
            bundle,
            files,
            ..
        } => push_render(&mut wanted, data_file, bundle, files)?,
        Command::Format { file } => wanted.push(source_file(file))?,
    }
    Ok(wanted)
}

/// Adds the files of a `render` or `preview`: the data, the bundle where it is a file, and the template files.
fn push_render<'a>(
    wanted: &mut Vec<FileWanted<'a>>,
    json: &'a str,
    bundle: &'a str,
    files: &'a [String],
) -> Result<(), OutOfMemory>
    ensures { OnOk result (view_files wanted.new.items
        ≡ view_files wanted.old.items ++ render_files json.now bundle.now (command_words files.now)) }
{
    wanted.push(data_file(json))?;
    push_sources(wanted, bundle, files)
}

/// Adds the files of a `play`: the script, the bundles where they are files, and the template files.
fn push_play<'a>(
    wanted: &mut Vec<FileWanted<'a>>,
    script: &'a str,
    first: &'a str,
    second: &'a str,
    files: &'a [String],
) -> Result<(), OutOfMemory>
    ensures { OnOk result (view_files wanted.new.items
        ≡ view_files wanted.old.items ++ play_files script.now first.now second.now (command_words files.now)) }
{
    wanted.push(data_file(script))?;
    push_bundle(wanted, first)?;
    push_sources(wanted, second, files)
}

/// Adds a bundle, where it is a file, and template files.
fn push_sources<'a>(
    wanted: &mut Vec<FileWanted<'a>>,
    bundle: &'a str,
    files: &'a [String],
) -> Result<(), OutOfMemory>
    ensures { OnOk result (view_files wanted.new.items
        ≡ view_files wanted.old.items ++ (bundle_files bundle.now ++ map source_file (command_words files.now))) }
{
    push_bundle(wanted, bundle)?;
    push_files(wanted, files)
}

/// Adds template files.
fn push_files<'a>(wanted: &mut Vec<FileWanted<'a>>, files: &'a [String]) -> Result<(), OutOfMemory>
    ensures { OnOk result (view_files wanted.new.items
        ≡ view_files wanted.old.items ++ map source_file (command_words files.now)) }
{
    for file in files {
        wanted.push(source_file(file.as_str()))?;
    }
    Ok(())
}

/// Adds a bundle, where it is a file.
fn push_bundle<'a>(wanted: &mut Vec<FileWanted<'a>>, bundle: &'a str) -> Result<(), OutOfMemory>
    ensures { OnOk result (view_files wanted.new.items ≡ view_files wanted.old.items ++ bundle_files bundle.now) }
{
    if !is_source_language(bundle) {
        wanted.push(data_file(bundle))?;
    }
    Ok(())
}
