// Rows of a BLT: n pixels of row j, from column i. One loop serves every source and pattern; faster ones stand beside it, behind
// the same contract.
// What a row asks (`Row .. b i j n`) ties frame memory, BLT and place, which are lent apart, so it stands in the contracts and in no type.
// The place is three numbers, since each row counts on from them; a struct would be taken apart at once. `Solid`, `Frame`, a code, `Plain`
// and `is_full` say which row it is, here and in `moves`, `mixes` and `glyphs`; the painters above keep them as fields. `0 < n` and
// `i < 2 ^ 32` are bounds of plain numbers.
#![tactic(auto)]

ghost use Rattle.std.specs.Prelude.{◌≡◌, ◌^◌, ◌<◌, length};
ghost use Rattle.model.specs.Pattern.{pattern_index};
ghost use Rattle.model.specs.declared.Pattern.TheVariants.{Solid, Mono};
ghost use Rattle.laws.specs.Ranges.{FitPattern};
ghost use Rattle.laws.specs.Patterns.{Turned};
ghost use Rattle.laws.specs.Rows.{Row, row_pixels};
ghost use Rattle.laws.specs.Lows.{low_byte};
ghost use Rattle.laws.specs.Whole.{blended};
ghost use Rattle.laws.specs.Changes.{Changes};
ghost use Rattle.laws.specs.Plain.{Plain, Served};

use model::{Blt, MonoPattern, Rectangle};
use pixel::{Blend, Inks};

// Any source and pattern.
pub fn general(f: &mut [u8], b: Blt, i: usize, j: usize, n: usize)
    requires { Row (length f.old) b i j n }
    ensures { f.new ≡ row_pixels b i j n f.old }
{
    for m in 0..n {
        let x = i + m;
        let o = operands::at(f, b, x, j);
        let at = rectangle::pixel_byte(b.destination, x, j);
        operands::draw(f, b.destination.depth, b.code, at, o);
    }
}

// ---- rows for which one value serves as the source of every pixel: their bytes are lent to a row writer

// The row whose lowest byte is a, where every pixel gets one value.
pub fn fill_at(f: &mut [u8], b: Blt, value: u32, a: usize, i: usize, j: usize, n: usize)
    requires { (Row (length f.old) b i j n) × (0 < n) × (Changes b i j n (λ m old. value)) × (a ≡ low_byte b.destination i j n) }
    ensures { f.new ≡ row_pixels b i j n f.old }
{
    let depth = b.destination.depth;
    writers::fill(&mut f[a..a + n * depth], depth, value);
}

// A solid pattern under raster operation F0h.
pub fn fill(f: &mut [u8], b: Blt, color: u32, i: usize, j: usize, n: usize)
    requires { (Row (length f.old) b i j n) × (0 < n) × (b.pattern ≡ Solid color) × (b.code ≡ 240) × (Served b.code b.source) }
    ensures { f.new ≡ row_pixels b i j n f.old }
{
    let a = rectangle::low_byte(b.destination, i, j, n);
    fill_at(f, b, color, a, i, j, n);
}

// The row whose lowest byte is a, where every pixel is blended alike.
pub fn blend_at(f: &mut [u8], b: Blt, v: Blend<u32>, a: usize, i: usize, j: usize, n: usize)
    requires { (Row (length f.old) b i j n) × (0 < n) × (Changes b i j n (λ m. blended v.flip v.keep)) × (a ≡ low_byte b.destination i j n) }
    ensures { f.new ≡ row_pixels b i j n f.old }
{
    let depth = b.destination.depth;
    writers::blend(&mut f[a..a + n * depth], depth, v);
}

// A solid pattern under any raster operation.
pub fn blend(f: &mut [u8], b: Blt, color: u32, value: u32, i: usize, j: usize, n: usize)
    requires { (Row (length f.old) b i j n) × (0 < n) × (b.pattern ≡ Solid color) × (Plain b.code b.source value) }
    ensures { f.new ≡ row_pixels b i j n f.old }
{
    let v = pixel::blend_of(b.code, color, value);
    let a = rectangle::low_byte(b.destination, i, j, n);
    blend_at(f, b, v, a, i, j, n);
}

// The bits of a mono pattern for row j, those of column i first: eight, where `operands::mono_bit` has one.
fn mono_bits(p: MonoPattern, d: Rectangle, i: usize, j: usize) -> u32
    requires { (FitPattern (Mono p)) × (i < 2 ^ 32) × (j < 2 ^ 32) }
    ensures { Turned p.data0 p.data1 (pattern_index d.rows.negative p.row j) (pattern_index d.columns.negative p.column i) result }
{
    let row = pixel::pattern_index(d.rows.negative, p.row, j);
    let column = pixel::pattern_index(d.columns.negative, p.column, i);
    pixel::pattern_bits(p.data0, p.data1, row, column)
}

// A mono pattern under any raster operation.
pub fn mono(f: &mut [u8], b: Blt, p: MonoPattern, value: u32, i: usize, j: usize, n: usize)
    requires { (Row (length f.old) b i j n) × (0 < n) × (b.pattern ≡ Mono p) × (Plain b.code b.source value) }
    ensures { f.new ≡ row_pixels b i j n f.old }
{
    let inks = Inks {
        set: pixel::blend_of(b.code, p.color1, value),
        clear: pixel::blend_unless(p.transparent, b.code, p.color0, value),
    };
    let d = b.destination;
    let low = rectangle::low_column(d.columns.negative, i, n);
    let bits = mono_bits(p, d, low, j);
    let a = rectangle::pixel_byte(d, low, j);
    writers::marks(&mut f[a..a + n * d.depth], d.depth, bits, inks);
}
