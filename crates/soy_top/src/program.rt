//! The top call.

ghost use Rattle.std.specs.Prelude.{◌≡◌, ◌≤◌, ◌⊎◌, [], ℕ, List, Some, IfErr, IfOk, IfSome};
ghost use Rattle.soy_io.specs.Rose.{Rose};
ghost use Rattle.soy_top.specs.Answer.{Usage, Read, Refused, Done, TooDeep, answered};
ghost use Rattle.soy_top.specs.Runs.Change.{change};
ghost use Rattle.soy_top.specs.Runs.Concludes.{MayEnd};
ghost use Rattle.soy_top.specs.Runs.Course.{Course, Wrote, run_of};
ghost use Rattle.soy_top.specs.Runs.Due.{UsageDue, ReadDue, RefusedDue, DoneDue, TooDeepDue};
ghost use Rattle.soy_top.specs.Runs.Ending.{UsageSaid, ReadSaid, RefusalSaid, TextWritten, TooDeepSaid, SinkFailed};
ghost use Rattle.soy_top.specs.Runs.Ending.{OutPart, ErrPart, OnNoOutput, OnNothingWritten};
ghost use Rattle.soy_top.specs.FilesWanted.{wanted_files, wanted_names};
ghost use Rattle.soy_top.specs.MarkupKept.{MarkupIsKept};
ghost use Rattle.soy_top.specs.OrderKept.{OrderIsKept};
ghost use Rattle.soy_top.specs.PageTook.{PageTook};
ghost use Rattle.soy_top.specs.Rendered.{rendered};
ghost use Rattle.soy_top.specs.Words.{Word, command_words};

use crate::accept::accept;
use crate::command::command_of;
use crate::ending::Ending;
use crate::fetch::fetch_all;
use crate::status::Status;
use crate::wanted::wanted_files;
use soy_io::{Library, Sink};
use std::alloc::Global;

/// Reads the words, fetches the files that they want, accepts these and writes the output; or says
/// how the run ends instead of that.
fn perform<L: Library, K: Sink, E: Sink>(
    alloc: Global,
    words: &[String],
    files: &mut L,
    out: &mut K,
    err: &mut E,
) -> Result<Status, Ending>
    ensures wrote { IfOk result (λ status.
        Wrote (run_of (answered (L.held files.old) words.now) (wanted_names words.now)
        (L.faults files.old, L.faults files.new) (change K.Sink out.old out.new) (change E.Sink err.old err.new)
        status) (out.new ≡ out.old) (err.new ≡ err.old)) }
    ensures may_end { IfErr result (λ ending.
        MayEnd (answered (L.held files.old) words.now) (wanted_names words.now)
        (L.faults files.old, L.faults files.new) ending) }
    ensures same_out { IfErr result (λ ending. out.new ≡ out.old) }
    ensures same_err { IfErr result (λ ending. err.new ≡ err.old) }
    ensures held { L.held files.new ≡ L.held files.old }
    ensures files_untouched { wanted_files (command_words words.now) ≡ [] → files.new ≡ files.old }
    ensures file_faults_later { L.faults files.old ≤ L.faults files.new }
    ensures out_faults_later { K.faults out.old ≤ K.faults out.new }
    ensures err_faults_later { E.faults err.old ≤ E.faults err.new }
{
    let Some(command) = command_of(words) else {
        return Err(Ending::Usage);
    };
    let wanted = wanted_files(alloc, command)?;
    let contents = fetch_all(alloc, files, wanted.as_slice())?;
    let output = accept(alloc, command, contents.as_slice())?;
    Ok(output.write(alloc, out, err))
}

/// Performs what the words ask for, and says what is to be said instead of an output.
fn perform_and_conclude<L: Library, K: Sink, E: Sink>(
    alloc: Global,
    words: &[String],
    files: &mut L,
    out: &mut K,
    err: &mut E,
) -> Status
    ensures course { Course (run_of (answered (L.held files.old) words.now) (wanted_names words.now)
        (L.faults files.old, L.faults files.new) (change K.Sink out.old out.new) (change E.Sink err.old err.new)
        result) (out.new ≡ out.old) (err.new ≡ err.old) }
    ensures held { L.held files.new ≡ L.held files.old }
    ensures files_untouched { wanted_files (command_words words.now) ≡ [] → files.new ≡ files.old }
    ensures file_faults_later { L.faults files.old ≤ L.faults files.new }
    ensures out_faults_later { K.faults out.old ≤ K.faults out.new }
    ensures err_faults_later { E.faults err.old ≤ E.faults err.new }
{
    match perform(alloc, words, files, out, err) {
        Ok(status) => status,
        Err(ending) => ending.conclude(err),
    }
}

/// Does all that the program does: performs the command that the words name over the files of a
/// library, puts its answer on `out` and what it has to say on `err`, and says how it ended.
///
/// The words are read by position. What the program answers is `answered`, a function of the words
/// and of the files that the library is known to hold; each clause below says of one status when it
/// comes, or what is unchanged. Running out of memory alone is free: it may come instead of any answer.
pub fn run<L: Library, K: Sink, E: Sink>(
    alloc: Global,
    words: &[String],
    files: &mut L,
    out: &mut K,
    err: &mut E,
) -> Status
    // Usage comes exactly where the words are no command.
    ensures usage_only { result ≡ Status.Usage →
        UsageSaid (answered (L.held files.old) words.now) (change E.Sink err.old err.new) }
    ensures usage_due { answered (L.held files.old) words.now ≡ Some Usage →
        UsageDue (change E.Sink err.old err.new) result }

    // Read comes where a file of the words isn't there, or where the library fails.
    ensures read_only { result ≡ Status.Read →
        ReadSaid (answered (L.held files.old) words.now) (wanted_names words.now)
        (L.faults files.old, L.faults files.new) (change E.Sink err.old err.new) }
    ensures read_due { (file : Word) → answered (L.held files.old) words.now ≡ Some (Read file) →
        ReadDue (change E.Sink err.old err.new) result }

    // Refused comes exactly where there is a first fault, and its line is said.
    ensures refused_only { result ≡ Status.Refused →
        RefusalSaid (answered (L.held files.old) words.now) (change E.Sink err.old err.new) }
    ensures refused_due { (line : List ℕ) → answered (L.held files.old) words.now ≡ Some (Refused line) →
        RefusedDue (L.faults files.old, L.faults files.new) (change E.Sink err.old err.new) result }

    // Done comes exactly where there is a text to write, and all of it was written and nothing said.
    ensures done_only { result ≡ Status.Done →
        TextWritten (answered (L.held files.old) words.now) (change K.Sink out.old out.new) (err.new ≡ err.old) }
    ensures done_due { (text : List ℕ) → answered (L.held files.old) words.now ≡ Some (Done text) →
        DoneDue (L.faults files.old, L.faults files.new) (change K.Sink out.old out.new) (change E.Sink err.old err.new)
        result }

    // TooDeep comes exactly where the text ends at a call that nests too deep: all of it was written, and then the
    // line of the call was said.
    ensures too_deep_only { result ≡ Status.TooDeep →
        TooDeepSaid (answered (L.held files.old) words.now) (change K.Sink out.old out.new)
        (change E.Sink err.old err.new) }
    ensures too_deep_due { (text line : List ℕ) → answered (L.held files.old) words.now ≡ Some (TooDeep text line) →
        TooDeepDue (L.faults files.old, L.faults files.new) (change K.Sink out.old out.new)
        (change E.Sink err.old err.new) result }

    // Write comes only where a sink failed, and the other sink then took nothing, or all of its text.
    ensures write_only { result ≡ Status.Write →
        SinkFailed (answered (L.held files.old) words.now) (change K.Sink out.old out.new)
        (change E.Sink err.old err.new) (out.new ≡ out.old) (err.new ≡ err.old) }

    // However the run ends, each sink took a prefix of its text.
    ensures out_part { OutPart (answered (L.held files.old) words.now) (change K.Sink out.old out.new) }
    ensures err_part { ErrPart (answered (L.held files.old) words.now) (wanted_names words.now)
        (L.faults files.old, L.faults files.new) (change E.Sink err.old err.new) }

    // Where a page is rendered, the output took a prefix of it, and all of it where the run ends whole or too deep.
    ensures page_taken { IfSome (rendered (L.held files.old) words.now) (λ page.
        PageTook page (change K.Sink out.old out.new) result) }
    // Whatever its values hold, the page keeps its tags, attribute names and tokens of scripts and styles: any other
    // data of the types of its parameters that make the same choices give the same.
    ensures same_markup { IfSome (rendered (L.held files.old) words.now) (λ page. MarkupIsKept page) }
    // And where it is html, they give on each line the same visual order of what stands around the values, and of the
    // values.
    ensures same_visual_order { IfSome (rendered (L.held files.old) words.now) (λ page. OrderIsKept page) }

    // What isn't needed is unchanged, its count of faults included.
    ensures nothing_written { OnNothingWritten result (out.new ≡ out.old) }
    ensures out_untouched { IfSome (answered (L.held files.old) words.now) (λ answer.
        OnNoOutput answer (out.new ≡ out.old)) }
    ensures err_untouched { (text : List ℕ) → answered (L.held files.old) words.now ≡ Some (Done text) →
        (err.new ≡ err.old) ⊎ Rose (L.faults files.old) (L.faults files.new) }
    ensures files_untouched { wanted_files (command_words words.now) ≡ [] → files.new ≡ files.old }
    ensures held { L.held files.new ≡ L.held files.old }

    // No count of faults falls.
    ensures file_faults_later { L.faults files.old ≤ L.faults files.new }
    ensures out_faults_later { K.faults out.old ≤ K.faults out.new }
    ensures err_faults_later { E.faults err.old ≤ E.faults err.new }
{
    perform_and_conclude(alloc, words, files, out, err)
}
