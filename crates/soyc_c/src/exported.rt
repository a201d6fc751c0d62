//! What C calls.

ghost use Rattle.std.specs.Prelude.{◌≡◌, ◌⊎◌, length, IfSome};
ghost use Rattle.soy_top.specs.MarkupKept.{MarkupIsKept};
ghost use Rattle.soy_top.specs.OrderKept.{OrderIsKept};
ghost use Rattle.soyc_c.specs.Reply.{given, memory_status, page_at, reply_to};
ghost use Rattle.soyc_c.specs.Room.{filled};

use crate::parts::{FileParts, Part};
use crate::reply::{give, reply, stop_number};
use crate::room::Lengths;
use std::alloc::Global;

/// Runs the words of a call over its files, all of them parts of `bytes`, and puts what the program would write to its
/// output into `out` and what it would write to standard error into `err`: as much as fits, with both whole lengths.
///
/// The result is the program's exit status, 0 to 6 but never 4, or 7 where a part isn't within the bytes or a word or
/// a name isn't UTF-8. At 7, and at 1, where memory ran out, nothing is put and both lengths are 0.
#[unsafe(no_mangle)]
pub extern "C" fn soyc_run(
    alloc: Global,
    bytes: &[u8],
    words: &[Part],
    files: &[FileParts],
    out: &mut [u8],
    err: &mut [u8],
    lengths: &mut Lengths,
) -> u32
    // The status is that of the reply, but memory may run out instead.
    ensures status { (result ≡ (reply_to bytes.now words.now files.now).status) ⊎ (result ≡ memory_status) }

    // Each room begins with its text, as much of it as fits, and is unchanged after that; where memory ran out there is
    // no text.
    ensures out { out.new ≡ filled out.old (given result (reply_to bytes.now words.now files.now).out) }
    ensures err { err.new ≡ filled err.old (given result (reply_to bytes.now words.now files.now).err) }

    // The lengths are those of the whole texts.
    ensures out_length { lengths.new.out ≡ length (given result (reply_to bytes.now words.now files.now).out) }
    ensures err_length { lengths.new.err ≡ length (given result (reply_to bytes.now words.now files.now).err) }

    // Where the reply is a page, it keeps its markup and its visual order, whatever its values hold.
    ensures same_markup { IfSome (page_at bytes.now words.now files.now) MarkupIsKept }
    ensures same_visual_order { IfSome (page_at bytes.now words.now files.now) OrderIsKept }
{
    match reply(alloc, bytes, words, files) {
        Ok(ended) => give(&ended, out, err, lengths),
        Err(stop) => {
            lengths.out = 0;
            lengths.err = 0;
            stop_number(stop)
        }
    }
}
