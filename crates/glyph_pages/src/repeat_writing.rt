//! Pages written with the passages that repeat as macros (PCL 5 manual, "Macros").

use crate::passages::{Passage, Passages};
use glyph_patterns::append_labelled;
use std::alloc::{AllocError, Global};

/// How many macros there are at a time, at most.
const MACRO_LIMIT: u32 = 256;

/// Appends the passages of a text, those that repeat as macros of this ID and those below it.
pub fn append_with_macros(
    passages: &Passages,
    text: &[u8],
    first_id: u32,
    out: &mut Vec<u8>,
) -> Result<(), AllocError> {
    let alloc = *out.allocator();
    let mut writer = RepeatWriter::new(alloc, first_id, passages.list.len())?;
    for number in passages.order.iter() {
        let passage = passages.get(*number);
        writer.append(*number, passage, passages.bytes(*number, text), out)?;
    }
    Ok(())
}

/// Writes passages, one after the other.
#[derive(Drop)]
struct RepeatWriter {
    /// For each passage the ID of its macro, if it is defined.
    ids: Vec<Option<u32>>,
    next_id: u32,
    /// No macro has this ID.
    end_id: u32,
    /// The ID that is set, if it is that of a passage.
    set: Option<u32>,
    /// Whether what was written last is a run, so that a run may go on in its sequence.
    is_open: bool,
}

impl RepeatWriter {
    /// Before the first of as many passages.
    fn new(alloc: Global, first_id: u32, passages: usize) -> Result<RepeatWriter, AllocError> {
        Ok(RepeatWriter {
            ids: vec![in alloc; None; passages]?,
            next_id: first_id,
            end_id: first_id.saturating_sub(MACRO_LIMIT),
            set: None,
            is_open: false,
        })
    }

    /// Appends the passage of a number, which has these bytes.
    fn append(
        &mut self,
        number: usize,
        passage: Passage,
        bytes: &[u8],
        out: &mut Vec<u8>,
    ) -> Result<(), AllocError> {
        if let Some(Some(id)) = self.ids.get(number).copied() {
            self.append_run(id, out)?;
        } else if passage.is_macro() && self.next_id > self.end_id {
            self.append_first(number, bytes, out)?;
        } else {
            self.is_open = false;
            out.extend_from_slice(bytes)?;
        }
        if passage.has_macros {
            self.set = None;
        }
        Ok(())
    }

    /// Appends the macro of a passage, and runs it. Its ID stays set.
    fn append_first(
        &mut self,
        number: usize,
        bytes: &[u8],
        out: &mut Vec<u8>,
    ) -> Result<(), AllocError> {
        let id = self.next_id;
        self.next_id = id.saturating_sub(1);
        if let Some(of_passage) = self.ids.get_mut(number) {
            *of_passage = Some(id);
        }
        append_labelled(b"\x1b&f", id, out)?;
        out.extend_from_slice(b"y0X")?;
        out.extend_from_slice(bytes)?;
        out.extend_from_slice(b"\x1b&f1X")?;
        self.set = Some(id);
        self.is_open = false;
        self.append_run(id, out)
    }

    /// Appends a run of a macro, in the sequence of the run before it if that is what was written last.
    fn append_run(&mut self, id: u32, out: &mut Vec<u8>) -> Result<(), AllocError> {
        if self.is_open {
            out.pop();
            out.push(b'x')?;
        } else {
            out.extend_from_slice(b"\x1b&f")?;
        }
        if self.set != Some(id) {
            append_labelled(b"", id, out)?;
            out.push(b'y')?;
        }
        self.set = Some(id);
        self.is_open = true;
        out.extend_from_slice(b"2X")
    }
}
