// Whole rows of a BLT, one after the other, from a pixel that begins a row. The bytes of each lie one step from those of the row
// before, so nothing is worked out anew for a row.
#![tactic(auto)]

ghost use Rattle.std.specs.Prelude.{◌≡◌, true, ℕ, IfSome, ◌+◌, ◌*◌, ◌%◌, ◌^◌, ◌≤◌, ◌<◌, length};
ghost use Rattle.model.specs.declared.Blt.{Blt};
ghost use Rattle.model.specs.declared.Pattern.TheVariants.{Solid};
ghost use Rattle.model.specs.declared.Source.TheVariants.{Frame};
ghost use Rattle.model.specs.BltPixel.{draw_blt};
ghost use Rattle.laws.specs.Order.{Remain};
ghost use Rattle.laws.specs.Rows.{Band, Row, row_pixels};
ghost use Rattle.laws.specs.Lows.{low_byte};
ghost use Rattle.laws.specs.Whole.{flip_of, keep_of};
ghost use Rattle.laws.specs.Plain.{Plain};
ghost use Rattle.laws.specs.Moves.{Clear, is_full};
ghost use Rattle.laws.specs.Wholes.{wide};
ghost use Rattle.blocks.specs.Plains.{Plain-prop};

use model::{Blt, Rectangle};
use pixel::Blend;

// ---- any kind of row

// Whole rows of a kind of BLT.
pub trait WholeRows {
    // Where a row lies, and what is made ready once for all of them.
    type Place: Copy;

    ghost blt: { Self → Blt };

    // Row j lies there.
    ghost begins: { Self → Self.Place → (j : ℕ) → Type 0 };

    // The pixels of a row.
    fn width(&self) -> usize
        ensures { result ≡ wide (blt self.now) };

    // Where row j lies, if rows can be drawn from there on.
    fn first(&self, j: usize) -> Option<Self::Place>
        requires { (size : ℕ) × Row size (blt self.now) 0 j (wide (blt self.now)) }
        ensures { IfSome result (λ place. begins self.now place j) };

    // Draws row j and says where the row after it lies.
    fn paint(&self, f: &mut [u8], place: Self::Place, j: usize) -> Self::Place
        requires row { Row (length f.old) (blt self.now) 0 j (wide (blt self.now)) }
        requires begun { begins self.now place j }
        ensures drawn { f.new ≡ row_pixels (blt self.now) 0 j (wide (blt self.now)) f.old }
        ensures next { Row (length f.old) (blt self.now) 0 (j + 1) (wide (blt self.now)) → begins self.now result (j + 1) };
}

// Whether pixel k begins a row and is the first of n that are at least that row.
fn begins_whole(k: usize, n: usize, width: usize) -> bool
    requires { 0 < width }
    ensures { result ≡ true → (k % width ≡ 0) × (width ≤ n) }
{
    width <= n && rectangle::column_of(k, width) == 0
}

// Draws whole rows from pixel k on, and says how many of n pixels that is: none where it cannot begin, and never the last ones that
// make no whole row.
pub fn paint<R: WholeRows>(f: &mut [u8], rows: &R, k: usize, n: usize) -> usize
    requires { Band (length f.old) (R.blt rows.now) k n }
    ensures { Remain (draw_blt (R.blt rows.now)) k n f.old result f.new }
{
    let width = rows.width();
    if !begins_whole(k, n, width) {
        return 0;
    }
    let mut j = rectangle::row_of(k, width);
    let Some(mut place) = rows.first(j) else {
        return 0;
    };
    let mut drawn = 0;
    // the count of rows is not worked out first: most commands are so small that the division would be felt
    while width <= n - drawn {
        place = rows.paint(f, place, j);
        j += 1;
        drawn += width;
    }
    drawn
}

// ---- the kinds

// A solid pattern under raster operation F0h, where one value serves as the source; which one is of no account.
#[derive(Clone, Copy)]
pub struct FillRows {
    pub blt: Blt,
    pub color: u32,
    pub ghost solid: { blt.pattern ≡ Solid color },
    pub ghost code: { blt.code ≡ 240 },
    pub ghost plain: { Plain blt.code blt.source 0 } by { Plain-prop blt.code blt.source 0 },
}

impl WholeRows for FillRows {
    type Place = usize;

    ghost blt = { λ r. r.blt };

    ghost begins = { λ r at j. at ≡ low_byte r.blt.destination 0 j (wide r.blt) };

    fn width(&self) -> usize {
        self.blt.destination.columns.count
    }

    fn first(&self, j: usize) -> Option<usize> {
        Some(rectangle::low_byte(self.blt.destination, 0, j, self.width()))
    }

    fn paint(&self, f: &mut [u8], at: usize, j: usize) -> usize {
        rows::fill_at(f, self.blt, self.color, at, 0, j, self.width());
        rectangle::next(self.blt.destination.rows, at)
    }
}

// A solid pattern under any raster operation, where one value serves as the source.
#[derive(Clone, Copy)]
pub struct BlendRows {
    pub blt: Blt,
    pub color: u32,
    pub value: u32,
    pub ghost solid: { blt.pattern ≡ Solid color },
    pub ghost plain: { Plain blt.code blt.source value } by { Plain-prop blt.code blt.source value },
}

// The lowest byte of a row, and what becomes of each pixel.
#[derive(Clone, Copy)]
pub struct Blended {
    pub at: usize,
    pub blend: Blend<u32>,
}

impl WholeRows for BlendRows {
    type Place = Blended;

    ghost blt = { λ r. r.blt };

    ghost begins = { λ r place j. (place.at ≡ low_byte r.blt.destination 0 j (wide r.blt)) × (place.blend.flip ≡ flip_of r.blt.code r.color r.value) × (place.blend.keep ≡ keep_of r.blt.code r.color r.value) };

    fn width(&self) -> usize {
        self.blt.destination.columns.count
    }

    fn first(&self, j: usize) -> Option<Blended> {
        Some(Blended {
            at: rectangle::low_byte(self.blt.destination, 0, j, self.width()),
            blend: pixel::blend_of(self.blt.code, self.color, self.value),
        })
    }

    fn paint(&self, f: &mut [u8], place: Blended, j: usize) -> Blended {
        rows::blend_at(f, self.blt, place.blend, place.at, 0, j, self.width());
        Blended {
            at: rectangle::next(self.blt.destination.rows, place.at),
            ..place
        }
    }
}

// A source in frame memory under raster operation CCh, with a pattern that gives every pixel a value.
#[derive(Clone, Copy)]
pub struct CopyRows {
    pub blt: Blt,
    pub source: Rectangle,
    pub ghost framed: { blt.source ≡ Frame source },
    pub ghost code: { blt.code ≡ 204 },
    pub ghost full: { is_full blt.pattern ≡ true },
}

// The lowest bytes of a row's source and of the row.
#[derive(Clone, Copy)]
pub struct Copied {
    pub from: usize,
    pub to: usize,
}

// Whether every row of a copy meets no byte that it has overwritten, told by the first: source and destination then go on by the
// same step.
fn all_clear(b: &Blt, s: Rectangle, from: usize, to: usize, size: usize) -> bool
    requires { (from + size < 2 ^ 32) × (to + size < 2 ^ 32) }
    ensures { result ≡ true → (s.rows.step ≡ b.now.destination.rows.step) × (Clear b.now.destination.columns.negative from to size) }
{
    s.rows.step == b.destination.rows.step
        && moves::is_clear(b.destination.columns.negative, from, to, size)
}

impl WholeRows for CopyRows {
    type Place = Copied;

    ghost blt = { λ r. r.blt };

    ghost begins = { λ r place j. (place.from ≡ low_byte r.source 0 j (wide r.blt)) × (place.to ≡ low_byte r.blt.destination 0 j (wide r.blt)) × (r.source.rows.step ≡ r.blt.destination.rows.step) × (Clear r.blt.destination.columns.negative place.from place.to (wide r.blt * r.blt.destination.depth)) };

    fn width(&self) -> usize {
        self.blt.destination.columns.count
    }

    fn first(&self, j: usize) -> Option<Copied> {
        let width = self.width();
        let from = rectangle::low_byte(self.source, 0, j, width);
        let to = rectangle::low_byte(self.blt.destination, 0, j, width);
        if all_clear(
            &self.blt,
            self.source,
            from,
            to,
            moves::bytes_of(self.blt.destination.depth, width),
        ) {
            Some(Copied { from, to })
        } else {
            None
        }
    }

    fn paint(&self, f: &mut [u8], place: Copied, j: usize) -> Copied {
        moves::copy_at(
            f,
            self.blt,
            self.source,
            place.from,
            place.to,
            0,
            j,
            self.width(),
        );
        Copied {
            from: rectangle::next(self.source.rows, place.from),
            to: rectangle::next(self.blt.destination.rows, place.to),
        }
    }
}
