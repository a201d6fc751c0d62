//! What the words of the command line ask for.

ghost use Rattle.std.specs.Prelude.{◌≡◌, option_map};
ghost use Rattle.std.specs.Char.{is_ascii_digit};
ghost use Rattle.std.specs.List.{list_all};
ghost use Rattle.soy_top.specs.Asked.{asked_by_words, render_asked, check_asked, extract_asked, gen_asked};
ghost use Rattle.soy_top.specs.Asked.{play_asked, preview_asked, format_asked, are_digits, number_of};
ghost use Rattle.soy_top.specs.Asked.{has_file_count};
ghost use Rattle.soy_top.specs.View.{view_command};
ghost use Rattle.soy_top.specs.Words.{command_words};

/// A command with its words. `files` are 1 to 64 names of files.
#[derive(Clone, Copy)]
pub(crate) enum Command<'a> {
    Render {
        template: &'a str,
        data_file: &'a str,
        bundle: &'a str,
        files: &'a [String],
    },
    Check {
        bundle: &'a str,
        files: &'a [String],
    },
    Extract {
        files: &'a [String],
    },
    Gen {
        number: u32,
    },
    Play {
        script: &'a str,
        first: &'a str,
        second: &'a str,
        files: &'a [String],
    },
    Preview {
        template: &'a str,
        data_file: &'a str,
        bundle: &'a str,
        files: &'a [String],
    },
    Format {
        file: &'a str,
    },
}

/// The command of these words, and none exactly where they are no command with its counts and its
/// number.
pub(crate) fn command_of(words: &[String]) -> Option<Command<'_>>
    ensures { option_map view_command result ≡ asked_by_words (command_words words.now) }
{
    let (command, words) = words.split_first()?;
    match command.as_str() {
        "render" => render_of(words),
        "check" => check_of(words),
        "extract" => extract_of(words),
        "gen" => gen_of(words),
        "play" => play_of(words),
        "preview" => preview_of(words),
        "format" => format_of(words),
        _ => None,
    }
}

/// Whether there are as many files as a command takes.
fn has_file_count(files: &[String]) -> bool
    ensures { result ≡ has_file_count (command_words files.now) }
{
    0 < files.len() && files.len() <= 64
}

/// The words after `render`.
fn render_of(words: &[String]) -> Option<Command<'_>>
    ensures { option_map view_command result ≡ render_asked (command_words words.now) }
{
    match words {
        [template, data_file, bundle, files @ ..] if has_file_count(files) => {
            Some(Command::Render {
                template: template.as_str(),
                data_file: data_file.as_str(),
                bundle: bundle.as_str(),
                files,
            })
        }
        _ => None,
    }
}

/// The words after `check`.
fn check_of(words: &[String]) -> Option<Command<'_>>
    ensures { option_map view_command result ≡ check_asked (command_words words.now) }
{
    match words {
        [bundle, files @ ..] if has_file_count(files) => Some(Command::Check {
            bundle: bundle.as_str(),
            files,
        }),
        _ => None,
    }
}

/// The words after `extract`.
fn extract_of(files: &[String]) -> Option<Command<'_>>
    ensures { option_map view_command result ≡ extract_asked (command_words files.now) }
{
    if has_file_count(files) {
        return Some(Command::Extract { files });
    }
    None
}

/// Whether a word is made of decimal digits.
fn all_digits(word: &str) -> bool
    ensures { result ≡ list_all is_ascii_digit word.now }
{
    word.as_bytes().iter().all(|b| b.is_ascii_digit())
}

/// Whether a word is 1 to 10 decimal digits.
fn are_digits(word: &str) -> bool
    ensures { result ≡ are_digits word.now }
{
    all_digits(word) && 0 < word.len() && word.len() <= 10
}

/// The value of 1 to 10 decimal digits, if it fits.
fn number_of(word: &str) -> Option<u32>
    ensures { result ≡ number_of word.now }
{
    if !are_digits(word) {
        return None;
    }
    word.parse::<u32>().ok()
}

/// The words after `gen`.
fn gen_of(words: &[String]) -> Option<Command<'_>>
    ensures { option_map view_command result ≡ gen_asked (command_words words.now) }
{
    match words {
        [number] => {
            let number = number_of(number.as_str())?;
            Some(Command::Gen { number })
        }
        _ => None,
    }
}

/// The words after `play`.
fn play_of(words: &[String]) -> Option<Command<'_>>
    ensures { option_map view_command result ≡ play_asked (command_words words.now) }
{
    match words {
        [script, first, second, files @ ..] if has_file_count(files) => Some(Command::Play {
            script: script.as_str(),
            first: first.as_str(),
            second: second.as_str(),
            files,
        }),
        _ => None,
    }
}

/// The words after `preview`.
fn preview_of(words: &[String]) -> Option<Command<'_>>
    ensures { option_map view_command result ≡ preview_asked (command_words words.now) }
{
    match words {
        [template, data_file, bundle, files @ ..] if has_file_count(files) => {
            Some(Command::Preview {
                template: template.as_str(),
                data_file: data_file.as_str(),
                bundle: bundle.as_str(),
                files,
            })
        }
        _ => None,
    }
}

/// The words after `format`.
fn format_of(words: &[String]) -> Option<Command<'_>>
    ensures { option_map view_command result ≡ format_asked (command_words words.now) }
{
    match words {
        [file] => Some(Command::Format {
            file: file.as_str(),
        }),
        _ => None,
    }
}
