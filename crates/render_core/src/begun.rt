//! Pieces that have begun.

ghost use Rattle.std.specs.Prelude.{◌≡◌, ◌≤◌, ◌++◌, [], List, IfOk, None, OnErr, Some, drop, encode_utf8_all, length};
ghost use Rattle.std.specs.Prelude.{min, slice_get, take};
ghost use Rattle.std.specs.Str.{chars};
ghost use Rattle.soy_tree.specs.Values as values;
ghost use Rattle.soy_tree.specs.ViewValues.{view_value};
ghost use Rattle.template_ir.specs.declared.op.Op.TheVariants as op;
ghost use Rattle.template_ir.specs.declared.program.ProgramParts as code_parts;
ghost use Rattle.value_cursor.specs.BytesLeft.{CursorFits, bytes_left};
ghost use Rattle.render_core.specs.Forms.{EscapesAt, form_at};
ghost use Rattle.render_core.specs.Pulls.{Gave};
ghost use Rattle.render_core.specs.Rest.{PieceFits, piece_left, source_text, static_text, string_text};
ghost use Rattle.render_core.specs.Seen.{cells_seen, input_seen, program_seen};
ghost use Rattle.render_core.specs.Shows.{IsAtHand, print_text};
ghost use Rattle.render_core.specs.Stepping.{Given, IsSpared, output};
ghost use Rattle.render_core.specs.Variables.{cells_of, path_value};
ghost use Rattle.render_core.specs.declared.held.Bound.{Bound};

use crate::held::Path;
use crate::parts::{Point, part_of};
use crate::showing::{Print, Source};
use bidi_text::wrap;
use escapers::{Escaper, escape, escaper_for};
use soy_base::{Dir, OutOfMemory, Place, Text, ValueClass};
use soy_tree::Value;
use template_ir::{Op, ProgramParts};
use value_cursor::{Cursor, give_whole};

/// The text of the static op at a place, from one offset up to its end.
#[derive(Clone, Copy)]
pub(crate) struct Fixed {
    pub(crate) op: usize,
    pub(crate) start: usize,
    pub(crate) end: usize,
}

/// The escaped form of a text.
#[derive(Drop)]
pub(crate) struct Form {
    pub(crate) source: Source,
    pub(crate) cursor: Cursor,
}

/// A piece of which bytes are still to be given.
#[derive(Drop)]
pub(crate) enum Begun {
    Static(Fixed),
    Escaped(Form),
}

impl Begun {
    /// How many bytes are left.
    pub(crate) fn left(&self) -> u128
        ensures { (p : code_parts.ProgramParts) (input : values.Value) (bound : List Bound)
            → PieceFits p input bound self.now → result ≡ length (piece_left p input bound self.now) }
    {
        match self {
            Begun::Static(fixed) => fixed.end.saturating_sub(fixed.start) as u128,
            Begun::Escaped(form) => form.cursor.left(),
        }
    }

    /// Gives the next bytes to the beginning of the room, and answers their number.
    pub(crate) fn fill(&mut self, point: Point, room: &mut [u8]) -> usize
        requires { PieceFits (program_seen point) (input_seen point) point.bound.now self.old }
        ensures gives { Gave
            (piece_left (program_seen point.entry) (input_seen point.entry) point.entry.bound.now self.old)
            (piece_left (program_seen point.entry) (input_seen point.entry) point.entry.bound.now self.new)
            room.old room.new result }
        ensures fits { PieceFits (program_seen point.entry) (input_seen point.entry) point.entry.bound.now self.new }
    {
        match self {
            Begun::Static(fixed) => fixed.fill(point.scene.program, room),
            Begun::Escaped(form) => form.fill(point, room),
        }
    }
}

impl Fixed {
    fn fill(&mut self, program: &ProgramParts, room: &mut [u8]) -> usize
        requires start { self.old.start ≤ self.old.end }
        requires end { self.old.end ≡ length (encode_utf8_all (static_text (slice_get program.now.ops self.old.op))) }
        ensures gives { Gave
            (drop self.old.start (encode_utf8_all (static_text (slice_get program.now.ops self.old.op))))
            (drop self.new.start (encode_utf8_all (static_text (slice_get program.now.ops self.new.op))))
            room.old room.new result }
        ensures op { self.new.op ≡ self.old.op }
        ensures start { self.new.start ≤ self.new.end }
        ensures end { self.new.end ≡ self.old.end }
    {
        let n = copy_from(static_bytes(program, self.op), self.start, room);
        self.start += n;
        n
    }
}

impl Form {
    fn fill(&mut self, point: Point, room: &mut [u8]) -> usize
        requires { CursorFits self.old.cursor (encode_utf8_all (source_text
            (cells_seen point) self.old.source)) }
        ensures gives { Gave
            (bytes_left self.old.cursor (encode_utf8_all (source_text
            (cells_seen point.entry) self.old.source)))
            (bytes_left self.new.cursor (encode_utf8_all (source_text
            (cells_seen point.entry) self.new.source)))
            room.old room.new result }
        ensures fits { CursorFits self.new.cursor (encode_utf8_all (source_text
            (cells_seen point.entry) self.new.source)) }
    {
        match &self.source {
            Source::Made(text) => self.cursor.fill(text.text(), room),
            Source::Part(path) => self.cursor.fill(string_at(point, path), room),
        }
    }
}

/// The bytes of the static op at a place.
pub(crate) fn static_bytes(program: &ProgramParts, at: usize) -> &[u8]
    ensures { result.now ≡ encode_utf8_all (static_text (slice_get program.now.ops at)) }
{
    match program.op(at) {
        Some(Op::Static(text)) => text.text().as_bytes(),
        _ => &[],
    }
}

/// Copies what fits of the bytes from an offset on.
#[inline(always)]
pub(crate) fn copy_from(bytes: &[u8], from: usize, room: &mut [u8]) -> usize
    requires { from ≤ length bytes.now }
    ensures size { result ≡ min (length room.old) (length (drop from bytes.now)) }
    ensures given { room.new ≡ take result (drop from bytes.now) ++ drop result room.old }
{
    let rest = &bytes[from..];
    let n = room.len().min(rest.len());
    room[..n].copy_from_slice(&rest[..n]);
    n
}

/// How a value of a class is escaped at a place, if it is there.
pub(crate) fn escaper_at(place: Place, class: ValueClass) -> Option<Escaper>
    ensures { EscapesAt place class result }
{
    match escaper_for(place, class) {
        Some(Escaper::AsIs) => None,
        how => how,
    }
}

/// Gives the first bytes of the static text of the op at a place, and answers their number. What is left has begun.
#[inline(always)]
pub(crate) fn give_fixed(
    at: usize,
    text: &Text,
    room: &mut [u8],
    piece: &mut Option<Begun>,
) -> usize
    requires none { piece.old ≡ None }
    ensures { (p : code_parts.ProgramParts) (input : values.Value) (bound : List Bound)
        → slice_get p.ops at ≡ Some (op.Static text.now)
        → Given p input bound (encode_utf8_all text.now) (output room.old room.new piece.new) result }
{
    let bytes = text.text().as_bytes();
    let n = copy_from(bytes, 0, room);
    if n < bytes.len() {
        *piece = Some(Begun::Static(Fixed {
            op: at,
            start: n,
            end: bytes.len(),
        }));
    }
    n
}

/// Gives the first bytes of the form of a text at a place, and answers their number. What is left has begun.
#[inline(always)]
pub(crate) fn give_form(
    point: Point,
    place: Place,
    print: Print,
    class: ValueClass,
    room: &mut [u8],
    piece: &mut Option<Begun>,
) -> Result<usize, OutOfMemory>
    requires at_hand { IsAtHand (cells_seen point) print }
    requires none { piece.old ≡ None }
    ensures given { IfOk result (λ n.
        Given (program_seen point.entry) (input_seen point.entry) point.entry.bound.now
        (encode_utf8_all (form_at place class (print_text (cells_seen point.entry) print.entry)
        (program_seen point.entry).dir)) (output room.old room.new piece.new) n) }
    ensures refused { OnErr result (IsSpared (output room.old room.new piece.new)) }
{
    let Some(how) = escaper_at(place, class) else {
        drop(print);
        return Ok(0);
    };
    let dir = point.scene.program.dir;
    match print {
        Print::Made(text) => give_made(point, how, place, class, dir, text, room, piece),
        Print::Part(path, text) => {
            give_part(point, how, place, class, dir, path, text, room, piece)
        }
    }
}

/// The same of a text that was made.
#[inline(always)]
fn give_made(
    point: Point,
    how: Escaper,
    _place: Place,
    class: ValueClass,
    dir: Dir,
    text: Text,
    room: &mut [u8],
    piece: &mut Option<Begun>,
) -> Result<usize, OutOfMemory>
    requires escapes { EscapesAt _place class (Some how) }
    requires none { piece.old ≡ None }
    ensures given { IfOk result (λ n.
        Given (program_seen point.entry) (input_seen point.entry) point.entry.bound.now
        (encode_utf8_all (form_at _place class text dir))
        (output room.old room.new piece.new) n) }
    ensures refused { OnErr result (IsSpared (output room.old room.new piece.new)) }
{
    match give_whole(how, class, text.text(), dir, room) {
        Some(n) => {
            drop(text);
            Ok(n)
        }
        None => begin_made(point, how, _place, class, dir, text, room, piece),
    }
}

/// Gives the form by a cursor, which goes on with what the room doesn't take.
#[inline(never)]
fn begin_made(
    point: Point,
    how: Escaper,
    _place: Place,
    class: ValueClass,
    dir: Dir,
    text: Text,
    room: &mut [u8],
    piece: &mut Option<Begun>,
) -> Result<usize, OutOfMemory>
    requires escapes { EscapesAt _place class (Some how) }
    requires none { piece.old ≡ None }
    ensures given { IfOk result (λ n.
        Given (program_seen point.entry) (input_seen point.entry) point.entry.bound.now
        (encode_utf8_all (form_at _place class text dir))
        (output room.old room.new piece.new) n) }
    ensures refused { OnErr result (IsSpared (output room.old room.new piece.new)) }
{
    let mut cursor = match Cursor::begin(point.scene.alloc, how, class, text.text(), dir) {
        Ok(cursor) => cursor,
        Err(_) => {
            drop(text);
            return Err(OutOfMemory);
        }
    };
    let n = cursor.fill(text.text(), room);
    if cursor.left() > 0 {
        let source = Source::Made(text);
        *piece = Some(Begun::Escaped(Form { source, cursor }));
    } else {
        drop(text);
        drop(cursor);
    }
    Ok(n)
}

/// The same of a string of the data.
#[inline(always)]
fn give_part(
    point: Point,
    how: Escaper,
    _place: Place,
    class: ValueClass,
    dir: Dir,
    path: Path,
    text: &str,
    room: &mut [u8],
    piece: &mut Option<Begun>,
) -> Result<usize, OutOfMemory>
    requires characters { chars text.now ≡ string_text (path_value (cells_seen point) path) }
    requires bytes { text.now ≡ encode_utf8_all (string_text (path_value (cells_seen point) path)) }
    requires escapes { EscapesAt _place class (Some how) }
    requires none { piece.old ≡ None }
    ensures given { IfOk result (λ n.
        Given (program_seen point.entry) (input_seen point.entry) point.entry.bound.now
        (encode_utf8_all (form_at _place class (string_text (path_value (cells_seen point.entry) path)) dir))
        (output room.old room.new piece.new) n) }
    ensures refused { OnErr result (IsSpared (output room.old room.new piece.new)) }
{
    match give_whole(how, class, text, dir, room) {
        Some(n) => {
            drop(path);
            Ok(n)
        }
        None => begin_part(point, how, _place, class, dir, path, text, room, piece),
    }
}

/// Gives the form by a cursor, which goes on with what the room doesn't take.
#[inline(never)]
fn begin_part(
    point: Point,
    how: Escaper,
    _place: Place,
    class: ValueClass,
    dir: Dir,
    path: Path,
    text: &str,
    room: &mut [u8],
    piece: &mut Option<Begun>,
) -> Result<usize, OutOfMemory>
    requires characters { chars text.now ≡ string_text (path_value (cells_seen point) path) }
    requires bytes { text.now ≡ encode_utf8_all (string_text (path_value (cells_seen point) path)) }
    requires escapes { EscapesAt _place class (Some how) }
    requires none { piece.old ≡ None }
    ensures given { IfOk result (λ n.
        Given (program_seen point.entry) (input_seen point.entry) point.entry.bound.now
        (encode_utf8_all (form_at _place class (string_text (path_value (cells_seen point.entry) path)) dir))
        (output room.old room.new piece.new) n) }
    ensures refused { OnErr result (IsSpared (output room.old room.new piece.new)) }
{
    let mut cursor = match Cursor::begin(point.scene.alloc, how, class, text, dir) {
        Ok(cursor) => cursor,
        Err(_) => {
            drop(path);
            return Err(OutOfMemory);
        }
    };
    let n = cursor.fill(text, room);
    if cursor.left() > 0 {
        let source = Source::Part(path);
        *piece = Some(Begun::Escaped(Form { source, cursor }));
    } else {
        drop(path);
        drop(cursor);
    }
    Ok(n)
}

/// The escaped form of a text at a place, whole.
pub(crate) fn escaped_whole(
    point: Point,
    place: Place,
    print: &Print,
    class: ValueClass,
) -> Result<Text, OutOfMemory>
    requires { IsAtHand (cells_seen point) print.now }
    ensures { IfOk result (λ t. t ≡ form_at place class (print_text (cells_seen point.entry) print.now)
        (program_seen point.entry).dir) }
{
    match print {
        Print::Made(text) => escaped_text(point, place, text.text(), class),
        Print::Part(_, text) => escaped_text(point, place, *text, class),
    }
}

fn escaped_text(
    point: Point,
    place: Place,
    text: &str,
    class: ValueClass,
) -> Result<Text, OutOfMemory>
    ensures { IfOk result (λ t. t ≡ form_at place class (chars text.now) (program_seen point.entry).dir) }
{
    match escaper_at(place, class) {
        None => Ok(Text::empty(point.scene.alloc)),
        Some(Escaper::Wrap) => Ok(Text::new(wrap(
            point.scene.alloc,
            text,
            point.scene.program.dir,
        )?)),
        Some(how) => Ok(Text::new(escape(
            point.scene.alloc,
            how,
            class,
            text,
            point.scene.program.dir,
        )?)),
    }
}

/// The string that a path names, or nothing.
fn string_at<'i>(point: Point<'_, 'i, '_>, path: &Path) -> &'i str
    ensures characters { chars result.now ≡ string_text (path_value (cells_seen point.entry) path.now) }
    ensures bytes { result.now ≡ encode_utf8_all (string_text (path_value (cells_seen point.entry) path.now)) }
{
    match part_of(point, path) {
        Some(value) => string_of(value),
        None => no_text(),
    }
}

/// The string that a value is, or nothing.
fn string_of(value: &Value) -> &str
    ensures characters { chars result.now ≡ string_text (view_value value.now) }
    ensures bytes { result.now ≡ encode_utf8_all (string_text (view_value value.now)) }
{
    match value {
        Value::Null => no_text(),
        Value::Bool(_) => no_text(),
        Value::Int(_) => no_text(),
        Value::Str(text) => text.text(),
        Value::List(_) => no_text(),
        Value::Map(_) => no_text(),
        Value::Fields(_) => no_text(),
    }
}

/// The text without characters.
pub(crate) fn no_text() -> &'static str
    ensures characters { chars result.now ≡ [] }
    ensures bytes { result.now ≡ [] }
{
    ""
}
