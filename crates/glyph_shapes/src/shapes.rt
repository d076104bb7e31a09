//! Shapes of a page: black dots that hang together, each the neighbour of another in one of eight directions.

use crate::page_rows::Unpainted;
use crate::runs::{BlackRun, KeptRuns, Link, RowWalk};
use glyph_patterns::{number_of_place, short_number};
use std::alloc::{AllocError, Global};

/// The smallest box around a shape, in dots: `right` and `bottom` lie past it. No page has 65,535 dots in a row or in a column.
#[derive(Clone, Copy)]
pub struct Extent {
    pub left: u16,
    pub top: u16,
    pub right: u16,
    pub bottom: u16,
}

impl Extent {
    /// The box of one run of row `y`.
    fn of(y: u16, run: BlackRun) -> Extent {
        Extent {
            left: run.start,
            top: y,
            right: run.end,
            bottom: y.saturating_add(1),
        }
    }

    /// The smallest box around both.
    pub fn with(self, other: Extent) -> Extent {
        Extent {
            left: self.left.min(other.left),
            top: self.top.min(other.top),
            right: self.right.max(other.right),
            bottom: self.bottom.max(other.bottom),
        }
    }

    pub fn width(self) -> u32 {
        u32::from(self.right.saturating_sub(self.left))
    }

    pub fn height(self) -> u32 {
        u32::from(self.bottom.saturating_sub(self.top))
    }
}

/// The shapes of a page, in the order of their first runs.
#[derive(Drop)]
pub struct Shapes {
    /// The box of each shape.
    pub extents: Vec<Extent>,
    /// For each label of runs, the number of its shape.
    numbers: Vec<u32>,
    /// The runs of the page.
    pub runs: KeptRuns,
}

impl Shapes {
    /// The number of the shape of a run.
    pub fn number_of(&self, run: BlackRun) -> usize {
        parent_of(&self.numbers, run.label) as usize
    }
}

/// The shapes of a page. A run that touches one of the row above is of its shape.
pub fn find_shapes(alloc: Global, page: Unpainted<'_>) -> Result<Shapes, AllocError> {
    let mut walk = RowWalk::new(alloc, page);
    let mut labels = Labels {
        parents: Vec::new(alloc),
        extents: Vec::new(alloc),
    };
    let mut runs = KeptRuns::new(alloc, page.dpi());
    for y in 0..page.height() {
        find_in_row(y, &mut walk, &mut labels, &mut runs)?;
    }
    Ok(labels.into_shapes(runs))
}

/// Labels the runs of row `y`, the next one, and keeps them.
fn find_in_row(
    y: u32,
    walk: &mut RowWalk<'_>,
    labels: &mut Labels,
    runs: &mut KeptRuns,
) -> Result<(), AllocError> {
    walk.step(y)?;
    labels.add_row(short_number(y), &walk.runs, &walk.links)?;
    runs.keep(&walk.runs)
}

/// The labels of runs so far.
#[derive(Drop)]
struct Labels {
    /// Each label has a parent of its shape, which is itself or an earlier one.
    parents: Vec<u32>,
    /// The box of the runs of each label.
    extents: Vec<Extent>,
}

impl Labels {
    /// Adds the runs of row `y`, and the links that come with it.
    fn add_row(&mut self, y: u16, runs: &[BlackRun], links: &[Link]) -> Result<(), AllocError> {
        for run in runs {
            match self.extents.get_mut(run.label as usize) {
                Some(extent) => *extent = extent.with(Extent::of(y, *run)),
                None => {
                    self.parents.push(run.label)?;
                    self.extents.push(Extent::of(y, *run))?;
                }
            }
        }
        for link in links {
            join(&mut self.parents, link.one, link.other);
        }
        Ok(())
    }

    /// Numbers the shapes, which have these runs. Their boxes move to the front, and numbers take the place of parents, label by label.
    fn into_shapes(self, runs: KeptRuns) -> Shapes {
        let mut numbers = self.parents;
        let mut extents = self.extents;
        let mut count: usize = 0;
        for label in 0..number_of_place(numbers.len()) {
            let parent = parent_of(&numbers, label);
            if parent == label {
                set_parent(&mut numbers, label, number_of_place(count));
                move_extent(&mut extents, label as usize, count);
                count = count.saturating_add(1);
            } else {
                let number = parent_of(&numbers, parent);
                set_parent(&mut numbers, label, number);
                add_extent(&mut extents, label as usize, number as usize);
            }
        }
        extents.truncate(count);
        Shapes {
            extents,
            numbers,
            runs,
        }
    }
}

/// Moves a box from one place to another.
fn move_extent(extents: &mut [Extent], from: usize, to: usize) {
    if let Some(extent) = extents.get(from).copied() {
        if let Some(place) = extents.get_mut(to) {
            *place = extent;
        }
    }
}

/// Adds the box in one place to that in another.
fn add_extent(extents: &mut [Extent], from: usize, to: usize) {
    if let Some(extent) = extents.get(from).copied() {
        if let Some(place) = extents.get_mut(to) {
            *place = place.with(extent);
        }
    }
}

/// Joins the shapes of two labels.
fn join(parents: &mut [u32], one: u32, other: u32) {
    let one = root(parents, one);
    let other = root(parents, other);
    set_parent(parents, one.max(other), one.min(other));
}

/// The first label of the shape of a label. The way there is halved for later calls.
fn root(parents: &mut [u32], label: u32) -> u32 {
    let mut label = label;
    for _ in 0..parents.len() {
        let parent = parent_of(parents, label);
        if parent == label {
            return label;
        }
        let grandparent = parent_of(parents, parent);
        set_parent(parents, label, grandparent);
        label = grandparent;
    }
    label
}

/// The parent of a label.
fn parent_of(parents: &[u32], label: u32) -> u32 {
    parents.get(label as usize).copied().unwrap_or(label)
}

/// Sets the parent of a label.
fn set_parent(parents: &mut [u32], label: u32, parent: u32) {
    if let Some(place) = parents.get_mut(label as usize) {
        *place = parent;
    }
}
