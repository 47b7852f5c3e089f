//! The outline of a record: a line for each element, indented by two spaces for each list around it.
ghost use Rattle.std.specs.Prelude.{◌≡◌, ◌+◌, ◌*◌, ◌<◌, ◌≤◌, ◌++◌, replicate, IfOk, OnOk};
ghost use Rattle.sexp.specs.Elements.{depth as depth_of};
ghost use Rattle.holder.specs.Contents.{Standing};
ghost use Rattle.holder.specs.Copies.{record_of};
ghost use Rattle.holder.specs.Placed.{erase};
ghost use Rattle.holder.specs.Walks.{run_of, first_of};
ghost use Rattle.outlines.specs.Outline.{atom_line, list_line, outline};

use crate::escapes::add_octet;
use holder::elements::{Content, Element, Octets};
use holder::holding::Holder;
use std::alloc::{AllocError, Global};

// Adds an atom's line, but for its indent.
fn add_atom<H: Holder>(lines: &mut Vec<u8>, octets: &Octets<'_, H>) -> Result<(), AllocError>
    ensures { OnOk result (lines.new.items ≡ lines.old.items ++ atom_line octets.now) }
{
    lines.extend_from_slice(b"\"")?;
    for index in 0..octets.len() {
        if let Some(octet) = octets.get(index) {
            add_octet(lines, octet)?;
        }
    }
    lines.extend_from_slice(b"\"\n")
}

// Adds the indent of a line.
fn add_indent(lines: &mut Vec<u8>, depth: usize) -> Result<(), AllocError>
    ensures { OnOk result (lines.new.items ≡ lines.old.items ++ replicate (2 * depth) 32) }
{
    for _ in 0..depth {
        lines.extend_from_slice(b"  ")?;
    }
    Ok(())
}

// Adds the line of a list, but for its indent.
fn add_list<H: Holder>(
    lines: &mut Vec<u8>,
    first: &Option<Element<'_, H>>,
) -> Result<(), AllocError>
    requires { Standing first.now }
    ensures { OnOk result (lines.new.items ≡ lines.old.items ++ list_line (erase (run_of first.now))) }
{
    match first {
        Some(_) => lines.extend_from_slice(b"list\n"),
        None => lines.extend_from_slice(b"empty list\n"),
    }
}

// Adds the lines of an element that stands in so many lists.
fn add_element<H: Holder>(
    lines: &mut Vec<u8>,
    element: &Element<'_, H>,
    depth: usize,
) -> Result<(), AllocError>
    requires { depth + depth_of (first_of element.now) ≤ 32 }
    ensures { OnOk result (lines.new.items ≡ lines.old.items ++ outline depth (first_of element.now)) }
{
    add_indent(lines, depth)?;
    match element.content() {
        Content::Atom(octets) => add_atom(lines, &octets),
        Content::List(first) => {
            add_list(lines, &first)?;
            let mut rest = first;
            while let Some(inner) = rest {
                add_element(lines, &inner, depth + 1)?;
                rest = inner.next();
            }
            Ok(())
        }
    }
}

/// The outline of a holder's record.
pub fn outline<H: Holder>(heap: Global, holder: &H) -> Result<Vec<u8>, AllocError>
    ensures { IfOk result (λ lines. lines.items ≡ outline 0 (record_of (H.meaning holder.now))) }
{
    let mut lines = Vec::new(heap);
    add_element(&mut lines, &Element::root(holder), 0)?;
    Ok(lines)
}
