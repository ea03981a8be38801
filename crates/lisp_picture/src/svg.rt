//! A picture as an image.

ghost use Rattle.std.specs.Prelude.{◌≡◌, IfOk, OnErr, OnOk, length};
ghost use Rattle.std.specs.String.{string_bytes};
ghost use Rattle.lisp_picture.specs.Markup.{Adds};
ghost use Rattle.lisp_picture.specs.Picture.{AddsElement, AddsElements, IsPicture, first_line, opening, texts_of};
ghost use Rattle.lisp_picture.specs.declared.drawing.Form.TheVariants.{Svg};

use crate::escape::put_escaped;
use crate::sheet::Sheet;
use crate::story::story_of;
use crate::style::STYLE;
use lisp_memory::{FallibleString, Memory};
use lisp_player::History;
use std::alloc::AllocError;

/// The picture of a schedule that was played as an image, SVG. Each command has its element, in their order, with its number,
/// from 1 on, and the first of its lines as `play` prints them. No text of the schedule can be markup there.
pub fn svg_text<A: Memory + Copy>(
    alloc: A,
    title: &str,
    history: &History<A>,
) -> Result<String<A>, AllocError>
    ensures picture { IfOk result (λ text.
        IsPicture Svg (texts_of history.now.outcomes.items) (string_bytes text)) }
    ensures memory { OnErr result A.may_refuse }
{
    let story = story_of(alloc, history)?;
    let mut sheet = Sheet::new(alloc, title, history, &story)?;
    let mut elements = String::new(alloc);
    put_elements(&mut elements, &mut sheet, history)?;
    let mut text = head(alloc, title, &mut sheet)?;
    text.try_write(elements.as_str())?;
    text.try_write("</svg>\n")?;
    Ok(text)
}

// What a picture begins with: its size, its title, its style, and what belongs to no command.
fn head<A: Memory + Copy>(
    alloc: A,
    title: &str,
    sheet: &mut Sheet<'_, A>,
) -> Result<String<A>, AllocError>
    ensures memory { OnErr result A.may_refuse }
{
    let width = sheet.width();
    let height = sheet.end()?;
    let mut text = String::try_format(
        alloc,
        format_args!(
            "<svg xmlns=\"http://www.w3.org/2000/svg\" role=\"img\" font-family=\"system-ui,sans-serif\" font-size=\"13\" xml:space=\"preserve\" width=\"{width}\" height=\"{height}\" viewBox=\"0 0 {width} {height}\">\n<title>"
        ),
    )?;
    put_escaped(&mut text, title)?;
    let frame = sheet.frame.text.as_str();
    text.try_write(format_args!(
        "</title>\n{STYLE}<rect class=\"sheet\" fill=\"#fff\" width=\"100%\" height=\"100%\"/>\n{frame}\n"
    ))?;
    Ok(text)
}

// Appends the elements of commands, in their order.
fn put_elements<A: Memory + Copy>(
    text: &mut String<A>,
    sheet: &mut Sheet<'_, A>,
    history: &History<A>,
) -> Result<(), AllocError>
    ensures elements { OnOk result (AddsElements Svg (texts_of history.now.outcomes.items)
        (length history.now.outcomes.items) (string_bytes text.old) (string_bytes text.new)) }
    ensures memory { OnErr result A.may_refuse }
{
    for (place, outcome) in history.outcomes.iter().enumerate() {
        let shapes = sheet.draw_row(place)?;
        put_element(text, place + 1, &outcome.text, &shapes)?;
    }
    Ok(())
}

// Appends the element of a command: its number, from 1 on, the first of its lines, as a tip, and its shapes.
fn put_element<A: Memory>(
    text: &mut String<A>,
    number: usize,
    lines: &str,
    shapes: &str,
) -> Result<(), AllocError>
    ensures element { OnOk result
        (AddsElement Svg number lines.now (string_bytes text.old) (string_bytes text.new)) }
    ensures memory { OnErr result A.may_refuse }
{
    put_opening(text, number, lines)?;
    text.try_write(format_args!("{shapes}</g>\n"))?;
    Ok(())
}

// Appends the beginning of an element, up to its tip.
#[tactic(auto, using(crate::proofs::Adding::steps))]
fn put_opening<A: Memory>(
    text: &mut String<A>,
    number: usize,
    lines: &str,
) -> Result<(), AllocError>
    ensures text { Adds result text.old text.new (opening Svg number lines.now) }
    ensures memory { OnErr result A.may_refuse }
{
    text.try_write(format_args!("<g id=\"e{number}\"><title>"))?;
    put_escaped(text, first_line(lines))?;
    text.try_write("</title>")
}

/// The first line of a text.
pub(crate) fn first_line(text: &str) -> &str
    ensures { result.now ≡ first_line text.now }
{
    match text.split_once('\n') {
        Some((line, _behind)) => line,
        None => text,
    }
}
