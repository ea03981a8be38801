//! The lines before and after the rows of a Map-Server that come by parts.

ghost use Rattle.std.specs.Prelude.{OnErr};
ghost use Rattle.lisp_lines.specs.Front.{Adds, GivesText};
ghost use Rattle.lisp_lines.specs.Name.{node_name};
ghost use Rattle.lisp_lines.specs.Query.{held_line, hold_by_parts};

use crate::name::node_name;
use lisp_memory::{FallibleString, Memory};
use lisp_sites::Config;
use std::alloc::{AllocError, Allocator};

/// The line before rows of which nobody knows yet how many come.
pub fn hold_by_parts<A: Memory, E: Allocator>(
    alloc: A,
    config: &Config<E>,
    server: usize,
) -> Result<String<A>, AllocError>
    ensures text { GivesText result (hold_by_parts (node_name config.now server)) }
    ensures memory { OnErr result A.may_refuse }
{
    let server = node_name(config, server);
    String::try_format(alloc, format_args!("hold {server} by parts\n"))
}

/// Appends the line after them: how many came. Out of memory, it may leave a front of it.
pub fn put_held<A: Memory, E: Allocator>(
    text: &mut String<A>,
    config: &Config<E>,
    server: usize,
    rows: u64,
) -> Result<(), AllocError>
    ensures text { Adds result text.old text.new (held_line (node_name config.now server) rows) }
    ensures memory { OnErr result A.may_refuse }
{
    let server = node_name(config, server);
    text.try_write(format_args!("held {server} {rows}\n"))
}
