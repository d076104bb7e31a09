//! Runs of black dots in the rows of a page, and which of them hang together.

use crate::edges::{append_edges, count_runs};
use crate::page_rows::{PageRows, Unpainted};
use pcl_base::Dpi;
use std::alloc::{AllocError, Global};
use std::mem::swap;

/// After this many runs no further ones are looked for on a page.
const RUN_LIMIT: usize = 1_000_000;

/// A run of black dots of a row, from the dot `start` up to the one before `end`. No page has 65,535 dots in a row.
#[derive(Clone, Copy)]
pub struct BlackRun {
    pub start: u16,
    pub end: u16,
    /// The label of the first run that it touches of the row above; a label of its own where there is none.
    pub label: u32,
}

/// After this many labels no further runs are looked for on a page: its shapes are the dots of a picture, and each label takes memory.
fn label_limit(dpi: Dpi) -> u32 {
    match dpi {
        Dpi::Dpi300 => 100_000,
        Dpi::Dpi600 => 200_000,
    }
}

/// Two labels whose runs hang together.
#[derive(Clone, Copy)]
pub struct Link {
    pub one: u32,
    pub other: u32,
}

/// This many runs of a page are kept, in 1.3 or 2.6 megabytes; those of a page with more are found once more where they are wanted.
fn kept_runs_limit(dpi: Dpi) -> usize {
    match dpi {
        Dpi::Dpi300 => 163_840,
        Dpi::Dpi600 => 327_680,
    }
}

/// The runs of the rows of a page, as a walk over it found them: none where they are more than are kept.
#[derive(Drop)]
pub struct KeptRuns {
    runs: Vec<BlackRun>,
    /// For each row, how many runs there are up to its end.
    ends: Vec<usize>,
    /// How many runs are kept at most.
    limit: usize,
    is_full: bool,
}

impl KeptRuns {
    /// Above the topmost row of a page of this many dots per inch.
    pub fn new(alloc: Global, dpi: Dpi) -> KeptRuns {
        KeptRuns {
            runs: Vec::new(alloc),
            ends: Vec::new(alloc),
            limit: kept_runs_limit(dpi),
            is_full: false,
        }
    }

    /// Keeps the runs of the next row.
    pub fn keep(&mut self, runs: &[BlackRun]) -> Result<(), AllocError> {
        if self.runs.len().saturating_add(runs.len()) > self.limit {
            self.is_full = true;
            self.runs.clear();
            self.runs.shrink_to_fit();
            self.ends.clear();
        }
        if !self.is_full {
            self.make_room(runs.len())?;
            self.runs.extend_from_slice(runs)?;
            self.ends.push(self.runs.len())?;
        }
        Ok(())
    }

    /// Makes room for this many runs more, and for twice as many as there are then, but never for more than are kept.
    fn make_room(&mut self, count: usize) -> Result<(), AllocError> {
        let needed = self.runs.len().saturating_add(count);
        if needed > self.runs.capacity() {
            let room = needed.saturating_mul(2).min(self.limit);
            self.runs
                .reserve_exact(room.saturating_sub(self.runs.len()))?;
        }
        Ok(())
    }

    /// The runs of row `y`: none where they aren't kept.
    pub fn row(&self, y: u32) -> Option<&[BlackRun]> {
        let end = self.ends.get(y as usize).copied()?;
        let start = match y.checked_sub(1) {
            Some(above) => self.ends.get(above as usize).copied()?,
            None => 0,
        };
        self.runs.get(..end)?.get(start..)
    }
}

/// Goes over the rows of a page from the topmost one on, and passes over those that are white or crowded. Labels are numbered in the order
/// of their first runs, and each walk over a page gives its runs the same.
#[derive(Drop)]
pub struct RowWalk<'a> {
    rows: PageRows<'a>,
    dpi: Dpi,
    /// The runs of the row, from left to right.
    pub runs: Vec<BlackRun>,
    /// The labels that hang together by this row and the one above.
    pub links: Vec<Link>,
    /// The runs of the row above.
    above: Vec<BlackRun>,
    edges: Vec<u16>,
    /// How many runs there were.
    count: usize,
    /// How many labels there were.
    labels: u32,
}

impl<'a> RowWalk<'a> {
    /// Above the topmost row of a page.
    pub fn new(alloc: Global, page: Unpainted<'a>) -> RowWalk<'a> {
        RowWalk {
            rows: PageRows::new(alloc, page),
            dpi: page.dpi(),
            runs: Vec::new(alloc),
            links: Vec::new(alloc),
            above: Vec::new(alloc),
            edges: Vec::new(alloc),
            count: 0,
            labels: 0,
        }
    }

    /// Goes on to row `y`, the next one. The runs of a row like the one above are its runs: each touches the one above it, and
    /// no other.
    pub fn step(&mut self, y: u32) -> Result<(), AllocError> {
        self.links.clear();
        self.rows.read(y)?;
        if self.is_full() || is_passed_over(&self.rows.row) {
            swap(&mut self.above, &mut self.runs);
            self.runs.clear();
            return Ok(());
        }
        if !self.rows.is_again() {
            swap(&mut self.above, &mut self.runs);
            self.runs.clear();
            self.edges.clear();
            append_edges(&self.rows.row, &mut self.edges)?;
            self.label_runs()?;
        }
        self.count = self.count.saturating_add(self.runs.len());
        Ok(())
    }

    /// Whether no further runs of the page are looked for.
    fn is_full(&self) -> bool {
        self.count >= RUN_LIMIT || self.labels >= label_limit(self.dpi)
    }

    /// Labels the runs of the row that has these edges.
    fn label_runs(&mut self) -> Result<(), AllocError> {
        let mut first: usize = 0;
        for ends in self.edges.chunks(2) {
            if let [start, end] = *ends {
                first = first_ending_at(&self.above, first, start);
                let label = match linked_label(&self.above, first, end, &mut self.links)? {
                    Some(label) => label,
                    None => {
                        self.labels = self.labels.saturating_add(1);
                        self.labels.saturating_sub(1)
                    }
                };
                self.runs.push(BlackRun { start, end, label })?;
            }
        }
        Ok(())
    }
}

/// Whether no runs of a row are looked for.
fn is_passed_over(row: &[u8]) -> bool {
    row.is_empty() || is_crowded(row)
}

/// Whether a row has more runs than one for eight dots, as no row of text or of a printed picture has: a picture's dots are hundreds there.
fn is_crowded(row: &[u8]) -> bool {
    count_runs(row) as usize > row.len()
}

/// The place of the first run of the row above, from a place on, that doesn't end left of the dot diagonally above this one.
fn first_ending_at(above: &[BlackRun], first: usize, start: u16) -> usize {
    let runs = above.get(first..).unwrap_or(&[]);
    match runs.iter().position(|run| run.end >= start) {
        Some(count) => first.saturating_add(count),
        None => above.len(),
    }
}

/// The label of the first run of the row above, from a place on, which a run touches that ends here, beside or diagonally: none where it
/// touches none. Links that with the labels of others that it touches.
fn linked_label(
    above: &[BlackRun],
    first: usize,
    end: u16,
    links: &mut Vec<Link>,
) -> Result<Option<u32>, AllocError> {
    let mut label = None;
    for run in above.get(first..).unwrap_or(&[]) {
        if run.start > end {
            break;
        }
        match label {
            None => label = Some(run.label),
            Some(one) => {
                if one != run.label {
                    links.push(Link {
                        one,
                        other: run.label,
                    })?;
                }
            }
        }
    }
    Ok(label)
}
