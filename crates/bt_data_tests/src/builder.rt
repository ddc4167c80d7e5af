//! A builder of a root, call by call.

use crate::names::Words;
use bt_rows::push_hex;
use bt_tree::{Geometry, Hash32, Plain, RootBuilder, Shape};
use std::alloc::{AllocError, Global};
use std::fmt::Write;

pub fn builder_row(
    alloc: Global,
    builder: &mut Option<RootBuilder<Plain>>,
    words: &mut Words,
    out: &mut String,
) -> Result<(), AllocError> {
    let name = words.word();
    if name == "new" {
        return new_row(builder, words, out);
    }
    match builder {
        Some(builder) => call_row(alloc, builder, name, words, out),
        None => out.push_str("no builder"),
    }
}

/// A new builder, of the root of a file of as many bytes as a word says.
fn new_row(
    builder: &mut Option<RootBuilder<Plain>>,
    words: &mut Words,
    out: &mut String,
) -> Result<(), AllocError> {
    match Geometry::new(words.long()) {
        Some(geometry) => {
            *builder = Some(RootBuilder::new(Plain, geometry));
            out.push_str("a builder")
        }
        None => out.push_str("no tree"),
    }
}

fn call_row(
    alloc: Global,
    builder: &mut RootBuilder<Plain>,
    name: &str,
    words: &mut Words,
    out: &mut String,
) -> Result<(), AllocError> {
    match name {
        "push" => push_row(alloc, builder, words, out),
        "finish" => push_root(alloc, out, &builder.finish()),
        _ => {
            words.are_wrong();
            Ok(())
        }
    }
}

fn push_row(
    alloc: Global,
    builder: &mut RootBuilder<Plain>,
    words: &mut Words,
    out: &mut String,
) -> Result<(), AllocError> {
    let run = words.bytes(alloc)?;
    match builder.push(&run) {
        Ok(()) => out.push_str("pushed"),
        Err(error) => write!(out, "{error}"),
    }
}

/// A root, or why there is none.
pub fn push_root(
    alloc: Global,
    out: &mut String,
    root: &Result<Hash32, Shape>,
) -> Result<(), AllocError> {
    match root {
        Ok(root) => push_hex(alloc, out, root),
        Err(error) => write!(out, "{error}"),
    }
}
