//! Pictures of schedules: what happens at each node and under way between them, as an image (SVG) or as text for a terminal.
//!
//! # Decisions
//!
//! - Which shapes a picture has is open in its contract, and tested by stored pictures: a definition of the layout would be its
//!   code a second time.
//! - A picture takes its words from the line that `play` prints and from the table of refusals, so that there is one truth.
//! - A node to which nothing happens has no line, and the text above says how many there are: a configuration may have a
//!   thousand nodes.
//! - As text at most eight nodes have a line, since more leave no room for words in 100 characters.
//! - Above 600 commands an image has no words and no numbers, so that one of 10,000 commands has some 2 MB at most. Each
//!   command still has its element, with its line as the tip.
//! - A Map-Notify is drawn to the node with the address that its Map-Register came from, since it goes there, and not to the
//!   router that the Map-Register names.
//! - A picture as text is ASCII, with `?` for each other character: a terminal may not show others, and control characters
//!   could steer it.
//! - Titles, lines and words get into an image by `put_escaped` alone, so that no clause need say which texts are harmless.
//! - Light colours are attributes of the shapes, and the style has those of dark screens and of print. So viewers without style
//!   sheets, or without variables in them, show an image too.
//! - The ground around labels stands in the style, for viewers that know `paint-order`: others would draw it over the words.
//! - An image has no script, and no font or file from outside, so that a page may show it as it is.
#![tactic(auto)]

mod cells;
mod datagram;
mod drawing;
mod escape;
mod ladder;
pub mod laws;
mod notes;
mod pen;
mod row;
mod rungs;
mod sheet;
mod sheet_row;
mod story;
mod style;
mod svg;
mod table;
mod wrap;

pub use drawing::{Form, draw};
pub use ladder::ladder_text;
pub use svg::svg_text;
