//! The rules and the shapes of all pages of a job.

use crate::bands::TILE_SIDE;
use crate::baselines::{count_bottoms, guess_baseline};
use crate::drawing::Drawings;
use crate::inked_pages::InkedPage;
use crate::page_rows::Unpainted;
use crate::pictures::is_picture;
use crate::rows::append_rows;
use crate::rules::{Rule, Rules, find_rules, without_bars};
use crate::runs::{KeptRuns, RowWalk};
use crate::screening::screen_shapes;
use crate::shapes::{Extent, Shapes, find_shapes};
use crate::tiles::{Tile, find_tiles};
use glyph_patterns::{Form, Pattern, Patterns, Row, number_of_place, short_number};
use pcl_bitmap::{Page, PageSink};
use std::alloc::{AllocError, Global};
use std::marker::Model;

/// After this many shapes no further pages are looked at.
const SHAPE_LIMIT: usize = 4_000_000;

/// After this many shapes, and one more for this many bytes of the texts of the pages, no further pages are looked at either: shapes
/// of text take some thirty bytes each in a raster, but at 75 dots per inch ten.
const FIRST_SHAPES: usize = 32_768;

const SHAPE_BYTES: usize = 24;

/// A page with more shapes than this at 300 dots per inch, four times as many at 600, and one more for this many bytes of its text, is a
/// crowd of specks. A page of text has some 3,000, one with a picture ten times as many.
const FIRST_ON_PAGE: usize = 16_384;

const SHAPE_BYTES_ON_PAGE: usize = 32;

/// Both sides of a speck have fewer dots than this at 300 dots per inch.
const SPECK_SIDE: u32 = 8;

/// The pages of a job have fewer letters than this each at 300 dots per inch, than four times as many at 600, and one more for this many
/// bytes of their texts: more take longer than all else does with the pages.
const LETTERS_ON_PAGE: usize = 6_144;

const LETTER_BYTES_ON_PAGE: usize = 64;

/// After this many tiles, and one more for as many bytes of the texts, no further pictures are cut in tiles.
const FIRST_TILES: usize = 65_536;

/// What is kept of patterns may take a byte for this many of the texts of the pages, beside what is always allowed.
const BYTES_FOR_PATTERNS: usize = 4;

/// A shape on a page. Their order is that of printing: by pages, by lines, and from left to right.
#[derive(Clone, Copy, PartialEq, Eq, PartialOrd, Ord)]
pub struct PlacedShape {
    /// The number of its page, from 0.
    pub page: u16,
    /// The row on which it seems to stand.
    pub baseline: u16,
    /// The dot of its left edge.
    pub x: u16,
    /// Its topmost row.
    pub top: u16,
    /// The number of its pattern.
    pub pattern: u32,
}

/// The rules of the pages that came, and the shapes of what is left without them, in order. Shapes that are too large aren't kept, nor
/// those that stay in the raster whatever becomes of the others.
#[derive(Drop)]
pub struct Collection {
    /// How its letters will be printed.
    pub form: Form,
    /// The width of each page, in dots.
    pub widths: Vec<u32>,
    /// The height of each page, in dots.
    pub heights: Vec<u32>,
    pub rules: Rules,
    /// The patterns of the shapes, each once.
    pub patterns: Patterns,
    pub placed: Vec<PlacedShape>,
    /// The tiles of pictures that are printed as characters, page by page.
    pub tiles: Vec<PlacedShape>,
    /// The rows of the pages in turn, each page's with a white one below them. Pages in a row whose rows are the same have them once.
    pub rows: Vec<Row>,
    /// For each page, how many rows come before its own.
    pub starts: Vec<usize>,
    /// How many letters the pages may have, with the page that comes.
    pub letter_room: usize,
    /// How many bytes the texts of the pages take as rasters, with that of the page that comes.
    text_bytes: usize,
    /// How many bytes the text of the page that comes takes as a raster.
    page_bytes: usize,
}

impl Model for Collection {
    // Nothing is said of what was collected.
    ghost Value = { Unit {0} };

    ghost view = { λ _. tt };
}

impl Collection {
    /// No page yet, of pages whose letters are printed so.
    pub fn new(alloc: Global, form: Form) -> Collection {
        Collection {
            form,
            widths: Vec::new(alloc),
            heights: Vec::new(alloc),
            rules: Rules::new(alloc),
            patterns: Patterns::new(alloc),
            placed: Vec::new(alloc),
            tiles: Vec::new(alloc),
            rows: Vec::new(alloc),
            starts: Vec::new(alloc),
            letter_room: 0,
            text_bytes: 0,
            page_bytes: 0,
        }
    }

    /// Makes room for the shapes of the page that comes, whose text takes this many bytes as a raster.
    pub fn add_room(&mut self, bytes: usize) {
        self.page_bytes = bytes;
        self.patterns.add_room(bytes / BYTES_FOR_PATTERNS);
        self.letter_room = self.letter_room.saturating_add(self.letters_on_page());
        self.text_bytes = self.text_bytes.saturating_add(bytes);
    }

    /// Passes over a page: none of its rules and shapes is collected.
    pub fn pass_page(&mut self, page: &Page) -> Result<(), AllocError> {
        let first = self.rows.len();
        self.end_page(page, first)
    }

    /// Ends a page whose first row is in this place.
    fn end_page(&mut self, page: &Page, first: usize) -> Result<(), AllocError> {
        self.rules.end_page()?;
        let start = self.place_rows(first);
        self.starts.push(start)?;
        self.widths.push(page.size.width(page.dpi))?;
        self.heights.push(page.size.height(page.dpi))?;
        Ok(())
    }

    /// The height of a page, in dots.
    pub fn height_of(&self, page: u16) -> u32 {
        self.heights.get(usize::from(page)).copied().unwrap_or(0)
    }

    /// Collects the tiles of a page, and unless the page is a picture its rules and the shapes of what is left of it.
    fn collect_page(&mut self, page: &Page) -> Result<(), AllocError> {
        let page = InkedPage::new(*self.placed.allocator(), &page.bitmap)?;
        if is_picture(&page, self.page_bytes) {
            self.find_tiles(&page, &[])?;
            return Ok(());
        }
        let rules = self.find_rules(&page)?;
        self.rules.add(&rules)?;
        let tiles = self.find_tiles(&page, &rules)?;
        self.collect(Unpainted {
            inked: &page,
            rules: &rules,
            tiles: &tiles,
        })
    }

    /// Finds the rules of a page. Bars of a bar code are none where characters may be compressed.
    fn find_rules(&self, page: &InkedPage<'_>) -> Result<Vec<Rule>, AllocError> {
        let alloc = *self.placed.allocator();
        let rules = find_rules(alloc, page)?;
        match self.form {
            Form::Characters(kind) if kind.compresses => without_bars(alloc, &rules, kind.scale),
            _ => Ok(rules),
        }
    }

    /// Finds the tiles of a page without these rules that are printed as characters, and collects them: none where letters are macros,
    /// which take more bytes each.
    fn find_tiles(
        &mut self,
        page: &InkedPage<'_>,
        rules: &[Rule],
    ) -> Result<Vec<Tile>, AllocError> {
        let alloc = *self.placed.allocator();
        match self.form {
            Form::Characters(_) => {
                let page = Unpainted {
                    inked: page,
                    rules,
                    tiles: &[],
                };
                let tiles = find_tiles(alloc, page, self.room_for_tiles())?;
                self.collect_tiles(&tiles)?;
                Ok(tiles)
            }
            Form::Macros { .. } => Ok(Vec::new(alloc)),
        }
    }

    /// How many shapes more may be kept before a page is looked at.
    fn room_for_shapes(&self) -> usize {
        let limit = FIRST_SHAPES.saturating_add(self.text_bytes / SHAPE_BYTES);
        limit.min(SHAPE_LIMIT).saturating_sub(self.placed.len())
    }

    /// How many tiles more may be kept.
    fn room_for_tiles(&self) -> usize {
        let limit = FIRST_TILES.saturating_add(self.text_bytes / SHAPE_BYTES);
        limit.min(SHAPE_LIMIT).saturating_sub(self.tiles.len())
    }

    /// Collects tiles of a page.
    fn collect_tiles(&mut self, tiles: &[Tile]) -> Result<(), AllocError> {
        for tile in tiles {
            self.collect_tile(*tile)?;
        }
        Ok(())
    }

    /// Collects a tile of a page.
    fn collect_tile(&mut self, tile: Tile) -> Result<(), AllocError> {
        let rows = tile.rows();
        let bytes = usize::from(tile.width());
        let pattern = Pattern {
            width: u32::from(tile.width()),
            height: u32::from(TILE_SIDE),
            rows: rows.get(..bytes).unwrap_or(&[]),
        };
        let Some(pattern) = self.patterns.number_of_dots(pattern, self.form)? else {
            return Ok(());
        };
        self.tiles.push(PlacedShape {
            page: short_number(number_of_place(self.heights.len())),
            baseline: tile.top.saturating_add(TILE_SIDE),
            x: tile.left,
            top: tile.top,
            pattern,
        })?;
        Ok(())
    }

    /// Collects the shapes of a page, and what its rows take where it has some.
    fn collect(&mut self, page: Unpainted<'_>) -> Result<(), AllocError> {
        let alloc = *self.placed.allocator();
        let first = self.rows.len();
        let placed = self.placed.len();
        let shapes = find_shapes(alloc, page)?;
        if !shapes.extents.is_empty() {
            append_rows(alloc, page, &mut self.rows)?;
            self.collect_found(page, &shapes, first)?;
        }
        if self.placed.len() == placed {
            self.rows.truncate(first);
        }
        Ok(())
    }

    /// Where the rows of a page begin that were appended from this place on: where those of the page before do, if they are the same.
    fn place_rows(&mut self, first: usize) -> usize {
        let before = self.starts.last().copied().unwrap_or(first);
        let (above, rows) = self.rows.split_at(first.min(self.rows.len()));
        let above = above.get(before..).unwrap_or(&[]);
        if !are_same(above, rows) {
            return first;
        }
        self.rows.truncate(first);
        before
    }

    /// Collects the shapes of a page that were found, unless none of them can be a letter. Where they are too many its specks stay in the
    /// raster, and if there are more others than letters, all do. The first row of the page is in this place.
    fn collect_found(
        &mut self,
        page: Unpainted<'_>,
        shapes: &Shapes,
        first: usize,
    ) -> Result<(), AllocError> {
        let mut stay = self.screen(shapes, first)?;
        if count_moving(&stay) > self.room_on_page() {
            leave_specks(&shapes.extents, self.form.scale(), &mut stay);
            if count_moving(&stay) > self.letters_on_page() {
                return Ok(());
            }
        }
        if count_moving(&stay) == 0 {
            return Ok(());
        }
        self.collect_shapes(page, shapes, &stay, first)
    }

    /// How many shapes the page that comes may have.
    fn room_on_page(&self) -> usize {
        self.per_area(FIRST_ON_PAGE)
            .saturating_add(self.page_bytes / SHAPE_BYTES_ON_PAGE)
    }

    /// How many letters the page that comes may have, if no other has fewer.
    fn letters_on_page(&self) -> usize {
        self.per_area(LETTERS_ON_PAGE)
            .saturating_add(self.page_bytes / LETTER_BYTES_ON_PAGE)
    }

    /// As many for the dots of a page as this is for those at 300 dots per inch.
    fn per_area(&self, count: usize) -> usize {
        let scale = self.form.scale() as usize;
        count.saturating_mul(scale.saturating_mul(scale))
    }

    /// Which of the shapes of a page whose first row is in this place can't be letters.
    fn screen(&mut self, shapes: &Shapes, first: usize) -> Result<Vec<bool>, AllocError> {
        let alloc = *self.placed.allocator();
        let first = first.min(self.rows.len());
        screen_shapes(alloc, &shapes.extents, &mut self.rows[first..])
    }

    /// Collects those shapes of a page that don't stay where they are.
    fn collect_shapes(
        &mut self,
        page: Unpainted<'_>,
        shapes: &Shapes,
        stay: &[bool],
        first: usize,
    ) -> Result<(), AllocError> {
        let alloc = *self.placed.allocator();
        let scale = self.form.scale();
        let bottoms = count_bottoms(alloc, page.height(), &shapes.extents, scale)?;
        let mut drawings = Drawings::new(alloc, shapes, stay, scale)?;
        self.collect_rows(page, &shapes.runs, first, &mut drawings, &bottoms)
    }

    /// Draws the shapes of a page with these runs, of whose rows the first is in this place, and collects them. This many shapes end above
    /// each of its rows.
    fn collect_rows(
        &mut self,
        page: Unpainted<'_>,
        runs: &KeptRuns,
        first: usize,
        drawings: &mut Drawings<'_>,
        bottoms: &[u32],
    ) -> Result<(), AllocError> {
        let start = self.placed.len();
        let mut walk = RowWalk::new(*self.placed.allocator(), page);
        for y in 0..page.height() {
            let others = draw_row(runs, y, &mut walk, drawings)?;
            count_others(&mut self.rows, first.saturating_add(y as usize), others);
            self.collect_whole(short_number(y), first, drawings, bottoms)?;
        }
        let start = start.min(self.placed.len());
        self.placed[start..].sort_unstable();
        Ok(())
    }

    /// Collects the shapes that are whole once row `y` is drawn.
    fn collect_whole(
        &mut self,
        y: u16,
        first: usize,
        drawings: &mut Drawings<'_>,
        bottoms: &[u32],
    ) -> Result<(), AllocError> {
        let end = drawings.end_of_whole(y);
        for number in drawings.first()..end {
            if let Some((extent, pattern)) = drawings.shape(number) {
                self.collect_shape(extent, pattern, first, bottoms)?;
            }
        }
        drawings.forget(end);
        Ok(())
    }

    /// Collects a shape with this box.
    fn collect_shape(
        &mut self,
        extent: Extent,
        pattern: Pattern<'_>,
        first: usize,
        bottoms: &[u32],
    ) -> Result<(), AllocError> {
        let page = number_of_place(self.heights.len());
        let baseline = guess_baseline(extent, bottoms, self.form.scale());
        let rows = rows_of(&self.rows, first, extent);
        let Some(pattern) = self.patterns.number_of_shape(pattern, self.form, rows)? else {
            return Ok(());
        };
        self.placed.push(PlacedShape {
            page: short_number(page),
            baseline: short_number(baseline),
            x: extent.left,
            top: extent.top,
            pattern,
        })?;
        Ok(())
    }
}

/// How many of the shapes of a page don't stay in the raster.
fn count_moving(stay: &[bool]) -> usize {
    stay.iter().filter(|stays| !**stays).count()
}

/// Has the specks among the shapes with these boxes stay in the raster: they are smaller than letters. `scale` dots are one at 300 dots per
/// inch.
fn leave_specks(extents: &[Extent], scale: u32, stay: &mut [bool]) {
    let side = SPECK_SIDE.saturating_mul(scale);
    for (extent, stays) in extents.iter().zip(stay.iter_mut()) {
        if extent.width() < side && extent.height() < side {
            *stays = true;
        }
    }
}

/// Draws row `y` of a page, the next one, and counts the runs of shapes that aren't drawn and don't stay. Its runs are found once more
/// where they aren't kept.
fn draw_row(
    runs: &KeptRuns,
    y: u32,
    walk: &mut RowWalk<'_>,
    drawings: &mut Drawings<'_>,
) -> Result<u16, AllocError> {
    match runs.row(y) {
        Some(runs) => drawings.draw_row(short_number(y), runs),
        None => {
            walk.step(y)?;
            drawings.draw_row(short_number(y), &walk.runs)
        }
    }
}

/// Whether rows are the same, one by one.
fn are_same(rows: &[Row], others: &[Row]) -> bool {
    if rows.len() != others.len() {
        return false;
    }
    for (row, other) in rows.iter().zip(others) {
        if row.bytes != other.bytes || row.others != other.others {
            return false;
        }
    }
    true
}

/// Counts other runs of the row in a place.
fn count_others(rows: &mut [Row], place: usize, others: u16) {
    if let Some(row) = rows.get_mut(place) {
        row.others = row.others.saturating_add(others);
    }
}

/// The rows that the shape with this box is in, with the one below it, of the page whose first row is in this place.
fn rows_of(rows: &[Row], first: usize, extent: Extent) -> &[Row] {
    let start = first.saturating_add(usize::from(extent.top));
    let end = first.saturating_add(usize::from(extent.bottom));
    let rows = rows.get(..end.saturating_add(1)).unwrap_or(&[]);
    rows.get(start..).unwrap_or(&[])
}

impl PageSink for Collection {
    ghost takes = { λ old page new. Unit {0} };

    fn page(&mut self, page: &Page) -> Result<(), AllocError> {
        let first = self.rows.len();
        if self.room_for_shapes() > 0 {
            self.collect_page(page)?;
        }
        self.end_page(page, first)
    }
}
