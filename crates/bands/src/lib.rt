// The rows of a BLT, one after the other: n pixels from pixel k. One loop goes along them for every kind of row; what draws a row of
// its kind is a painter.
#![tactic(auto)]

ghost use Rattle.std.specs.Prelude.{◌≡◌, ℕ, List, ⊤, ◌<◌, length};
ghost use Rattle.model.specs.declared.Blt.{Blt};
ghost use Rattle.model.specs.declared.Pattern.TheVariants.{Solid, Mono};
ghost use Rattle.model.specs.declared.Source.TheVariants.{Frame, Bits};
ghost use Rattle.model.specs.BltPixel.{draw_at};
ghost use Rattle.laws.specs.Order.{in_order, Remain};
ghost use Rattle.laws.specs.Rows.{Band, Row, length_at};
ghost use Rattle.laws.specs.Plain.{Plain};
ghost use Rattle.laws.specs.Tiles.{tile_at, color_in};
ghost use Rattle.blocks.specs.Plains.{Plain-prop};
ghost use Rattle.bands.specs.Numbered.{numbered, AskedInRow, Asked};

use blocks::{BlendRows, CopyRows, FillRows};
use model::{MonoPattern, MonoSource, Rectangle};
use tiles::Tile;

// ---- any kind of row

// What draws the rows of a kind of BLT.
pub trait RowPainter {
    // The BLT, whose destination says where the pixels lie.
    ghost blt: { Self → Blt };

    // What the pixel at column i of row j makes of frame memory.
    ghost pixel: { Self → (i j : ℕ) → List ℕ → List ℕ };

    // What that pixel asks beyond what the type keeps: of most nothing.
    ghost asks: { Self → (i j : ℕ) → Type 0 } = { λ s i j. ⊤ };

    // The pixels of a row.
    fn width(&self) -> usize
        ensures { result ≡ (blt self.now).destination.columns.count };

    // Draws n pixels of row j, from column i.
    fn paint(&self, f: &mut [u8], i: usize, j: usize, n: usize)
        requires row { Row (length f.old) (blt self.now) i j n }
        requires some { 0 < n }
        requires asked { AskedInRow (asks self.now) i j n }
        ensures { f.new ≡ in_order (λ x. pixel self.now x j) i n f.old };

    // Draws whole rows of n pixels from pixel k, where that costs less than row by row, and says how many pixels that is.
    fn paint_whole(&self, f: &mut [u8], k: usize, n: usize) -> usize
        requires { Band (length f.old) (blt self.now) k n }
        ensures { Remain (numbered (blt self.now) (pixel self.now)) k n f.old result f.new }
    {
        0
    }

    ghost keeps: { (s : Self) (i j : ℕ) (frame : List ℕ) → length (pixel s i j frame) ≡ length frame };
}

// Draws n pixels from pixel k, row by row.
fn paint_rows<P: RowPainter>(f: &mut [u8], painter: &P, k: usize, n: usize)
    requires band { Band (length f.old) (P.blt painter.now) k n }
    requires asked { Asked (P.blt painter.now) (P.asks painter.now) k n }
    ensures { f.new ≡ in_order (numbered (P.blt painter.now) (P.pixel painter.now)) k n f.old }
{
    let width = painter.width();
    let mut column = rectangle::column_of(k, width);
    let mut row = rectangle::row_of(k, width);
    let mut drawn = 0;
    // not a count of rows: the first and the last may be parts
    while drawn < n {
        let count = (width - column).min(n - drawn);
        painter.paint(f, column, row, count);
        column = 0;
        row += 1;
        drawn += count;
    }
}

// The same, whole rows first.
pub fn paint<P: RowPainter>(f: &mut [u8], painter: &P, k: usize, n: usize)
    requires band { Band (length f.old) (P.blt painter.now) k n }
    requires asked { Asked (P.blt painter.now) (P.asks painter.now) k n }
    ensures { f.new ≡ in_order (numbered (P.blt painter.now) (P.pixel painter.now)) k n f.old }
{
    let drawn = painter.paint_whole(f, k, n);
    if drawn < n {
        paint_rows(f, painter, k + drawn, n - drawn);
    }
}

// ---- the kinds that go whole rows first

impl RowPainter for FillRows {
    ghost blt = { λ s. s.blt };

    ghost pixel = { λ s. draw_at s.blt };

    fn width(&self) -> usize {
        self.blt.destination.columns.count
    }

    fn paint(&self, f: &mut [u8], i: usize, j: usize, n: usize) {
        rows::fill(f, self.blt, self.color, i, j, n);
    }

    fn paint_whole(&self, f: &mut [u8], k: usize, n: usize) -> usize {
        blocks::paint(f, self, k, n)
    }

    ghost keeps = { λ s. length_at s.blt };
}

impl RowPainter for BlendRows {
    ghost blt = { λ s. s.blt };

    ghost pixel = { λ s. draw_at s.blt };

    fn width(&self) -> usize {
        self.blt.destination.columns.count
    }

    fn paint(&self, f: &mut [u8], i: usize, j: usize, n: usize) {
        rows::blend(f, self.blt, self.color, self.value, i, j, n);
    }

    fn paint_whole(&self, f: &mut [u8], k: usize, n: usize) -> usize {
        blocks::paint(f, self, k, n)
    }

    ghost keeps = { λ s. length_at s.blt };
}

impl RowPainter for CopyRows {
    ghost blt = { λ s. s.blt };

    ghost pixel = { λ s. draw_at s.blt };

    fn width(&self) -> usize {
        self.blt.destination.columns.count
    }

    fn paint(&self, f: &mut [u8], i: usize, j: usize, n: usize) {
        moves::copy(f, self.blt, self.source, i, j, n);
    }

    fn paint_whole(&self, f: &mut [u8], k: usize, n: usize) -> usize {
        blocks::paint(f, self, k, n)
    }

    ghost keeps = { λ s. length_at s.blt };
}

// ---- the other kinds

// A mono pattern, where one value serves as the source.
#[derive(Clone, Copy)]
pub struct MonoRows {
    pub blt: model::Blt,
    pub pattern: MonoPattern,
    pub value: u32,
    pub ghost mono: { blt.pattern ≡ Mono pattern },
    pub ghost plain: { Plain blt.code blt.source value } by { Plain-prop blt.code blt.source value },
}

impl RowPainter for MonoRows {
    ghost blt = { λ s. s.blt };

    ghost pixel = { λ s. draw_at s.blt };

    fn width(&self) -> usize {
        self.blt.destination.columns.count
    }

    fn paint(&self, f: &mut [u8], i: usize, j: usize, n: usize) {
        rows::mono(f, self.blt, self.pattern, self.value, i, j, n);
    }

    ghost keeps = { λ s. length_at s.blt };
}

// A solid pattern with a source in frame memory.
#[derive(Clone, Copy)]
pub struct CombineRows {
    pub blt: model::Blt,
    pub color: u32,
    pub source: Rectangle,
    pub ghost solid: { blt.pattern ≡ Solid color },
    pub ghost framed: { blt.source ≡ Frame source },
}

impl RowPainter for CombineRows {
    ghost blt = { λ s. s.blt };

    ghost pixel = { λ s. draw_at s.blt };

    fn width(&self) -> usize {
        self.blt.destination.columns.count
    }

    fn paint(&self, f: &mut [u8], i: usize, j: usize, n: usize) {
        mixes::combine(f, self.blt, self.color, self.source, i, j, n);
    }

    ghost keeps = { λ s. length_at s.blt };
}

// A solid pattern with a mono source.
#[derive(Clone, Copy)]
pub struct BitRows {
    pub blt: model::Blt,
    pub color: u32,
    pub source: MonoSource,
    pub ghost solid: { blt.pattern ≡ Solid color },
    pub ghost bits: { blt.source ≡ Bits source },
}

impl RowPainter for BitRows {
    ghost blt = { λ s. s.blt };

    ghost pixel = { λ s. draw_at s.blt };

    fn width(&self) -> usize {
        self.blt.destination.columns.count
    }

    fn paint(&self, f: &mut [u8], i: usize, j: usize, n: usize) {
        glyphs::bits(f, self.blt, self.color, self.source, i, j, n);
    }

    ghost keeps = { λ s. length_at s.blt };
}

// Any source and pattern.
#[derive(Clone, Copy)]
pub struct AnyRows {
    pub blt: model::Blt,
}

impl RowPainter for AnyRows {
    ghost blt = { λ s. s.blt };

    ghost pixel = { λ s. draw_at s.blt };

    fn width(&self) -> usize {
        self.blt.destination.columns.count
    }

    fn paint(&self, f: &mut [u8], i: usize, j: usize, n: usize) {
        rows::general(f, self.blt, i, j, n);
    }

    ghost keeps = { λ s. length_at s.blt };
}

// ---- colour patterns

// Raster operation F0h, where one value serves as the source; which one is of no account.
#[derive(Clone, Copy)]
pub struct TileFillRows<'a> {
    pub blt: model::Blt,
    pub tile: &'a Tile,
    pub ghost code: { blt.code ≡ 240 },
    pub ghost plain: { Plain blt.code blt.source 0 } by { Plain-prop blt.code blt.source 0 },
}

impl<'a> RowPainter for TileFillRows<'a> {
    ghost blt = { λ s. s.blt };

    ghost pixel = { λ s. tile_at s.tile.now.colors s.tile.now.row s.tile.now.column s.blt };

    fn width(&self) -> usize {
        self.blt.destination.columns.count
    }

    fn paint(&self, f: &mut [u8], i: usize, j: usize, n: usize) {
        tiles::fill(f, self.blt, self.tile, i, j, n);
    }

    ghost keeps = { λ s i j. length_at _ i j };
}

// Any raster operation and source.
#[derive(Clone, Copy)]
pub struct TileRows<'a> {
    pub blt: model::Blt,
    pub tile: &'a Tile,
}

impl<'a> RowPainter for TileRows<'a> {
    ghost blt = { λ s. s.blt };

    ghost pixel = { λ s. tile_at s.tile.now.colors s.tile.now.row s.tile.now.column s.blt };

    fn width(&self) -> usize {
        self.blt.destination.columns.count
    }

    fn paint(&self, f: &mut [u8], i: usize, j: usize, n: usize) {
        tiles::general(f, self.blt, self.tile, i, j, n);
    }

    ghost keeps = { λ s i j. length_at _ i j };
}
