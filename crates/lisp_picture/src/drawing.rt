//! Drawing a schedule.

ghost use Rattle.std.specs.Prelude.{Some, IfOk, OnErr, IsErrOf};
ghost use Rattle.std.specs.String.{string_bytes};
ghost use Rattle.lisp_player.specs.Schedule.{Refuses};
ghost use Rattle.lisp_script.specs.declared.play_fault.PlayFault.{PlayFault};
ghost use Rattle.lisp_picture.specs.Drawing.{IsDrawn, IsSilent};
ghost use Rattle.lisp_picture.specs.Picture.{IsPicture, texts_of};

use crate::ladder::ladder_text;
use crate::svg::svg_text;
use lisp_lines::write_text;
use lisp_memory::Memory;
use lisp_player::{History, history_of};
use lisp_script::{PlayFault, read_to_end};
use std::alloc::{AllocError, Global};
use std::io::{Read, Write};
use std::str;

/// What a picture is called whose schedule has no comment.
const UNTITLED: &str = "A schedule";

/// What a picture is drawn as.
#[derive(Clone, Copy)]
pub enum Form {
    /// An image, SVG.
    Svg,
    /// Lines of text, at most 100 characters each.
    Text,
}

/// Reads a schedule, plays it as `play` does, and writes its picture: an element or the lines of each command, in their order,
/// whose words are those that `play` prints. `heap` serves the reading of TOML alone.
///
/// Faults: as `play`'s, in their order; at `Write` a front of the picture went out, at all others nothing.
pub fn draw<A: Memory + Copy, R: Read, W: Write>(
    heap: Global,
    alloc: A,
    form: Form,
    reader: &mut R,
    writer: &mut W,
) -> Result<(), PlayFault>
    ensures drawn { IsDrawn result A A.may_refuse form
        (R.remaining reader.old) W.contents writer.old writer.new }
    ensures refuses { Refuses result A.may_refuse (R.remaining reader.old) }
    ensures silent { IsSilent result W.contents writer.old writer.new }
    ensures memory { IsErrOf result PlayFault.OutOfMemory → A.may_refuse }
{
    let input = read_to_end(alloc, reader)?;
    draw_input(heap, alloc, form, &input, writer)
}

// Draws the schedule that an input is.
fn draw_input<A: Memory + Copy, W: Write>(
    heap: Global,
    alloc: A,
    form: Form,
    input: &[u8],
    writer: &mut W,
) -> Result<(), PlayFault>
    ensures drawn { IsDrawn result A A.may_refuse form
        (Some input.now) W.contents writer.old writer.new }
    ensures refuses { Refuses result A.may_refuse (Some input.now) }
    ensures silent { IsSilent result W.contents writer.old writer.new }
    ensures memory { IsErrOf result PlayFault.OutOfMemory → A.may_refuse }
{
    let history = history_of(heap, alloc, input)?;
    let schedule = str::from_utf8(input).unwrap_or("");
    let picture = picture(alloc, form, title_of(schedule), &history)?;
    write_text(&picture, writer)
}

// The picture of a schedule that was played.
fn picture<A: Memory + Copy>(
    alloc: A,
    form: Form,
    title: &str,
    history: &History<A>,
) -> Result<String<A>, AllocError>
    ensures picture { IfOk result
        (λ text. IsPicture form (texts_of history.now.outcomes.items) (string_bytes text)) }
    ensures memory { OnErr result A.may_refuse }
{
    match form {
        Form::Svg => svg_text(alloc, title, history),
        Form::Text => ladder_text(alloc, title, history),
    }
}

// The title of a schedule: its first comment, a line that begins with `#`, without that and the spaces around it.
fn title_of(schedule: &str) -> &str {
    for line in schedule.lines() {
        if let Some(comment) = line.strip_prefix('#') {
            return comment.trim();
        }
    }
    UNTITLED
}
