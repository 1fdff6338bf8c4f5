// Copies by one move of bytes: rows whose source is in frame memory, under raster operation CCh.
#![tactic(auto)]

ghost use Rattle.std.specs.Prelude.{◌≡◌, true, ◌+◌, ◌*◌, ◌^◌, ◌≤◌, ◌<◌, length};
ghost use Rattle.laws.specs.Rows.{Row, row_pixels};
ghost use Rattle.laws.specs.Lows.{low_byte};
ghost use Rattle.model.specs.declared.Source.TheVariants.{Frame};
ghost use Rattle.laws.specs.Moves.{moved, Laid, Beside, Clear, is_full};

use model::{Blt, Rectangle};

// ---- bytes

// Lays n bytes of s, from `from` on, into t from `to` on. (Byte by byte: `copy_from_slice` asks each time whether the two overlap, and the
// pieces of `mixes` took half as long again, `code 66 left` in bench/run.)
pub fn lay(s: &[u8], from: usize, t: &mut [u8], to: usize, n: usize)
    requires { (from + n ≤ length s.now) × (to + n ≤ length t.old) }
    ensures { Laid s.now from to 0 n t.old t.new }
{
    for i in 0..n {
        t[to + i] = s[from + i];
    }
}

// Moves n bytes: all are read before the first is written. The room in between costs nothing: the compiler makes one move of it.
// `copy_within` goes byte by byte where the two lie close by, and `copy left CC` in bench/run takes up to twenty times as long.
fn move_bytes(f: &mut [u8], from: usize, to: usize, n: usize)
    requires few { n ≤ 16384 }
    requires source_in { from + n ≤ length f.old }
    requires row_in { to + n ≤ length f.old }
    ensures { f.new ≡ moved from to n f.old }
{
    let mut room = [0u8; 16384];
    lay(f, from, &mut room, 0, n);
    lay(&room, 0, f, to, n);
}

// Whether x is none of the n bytes from y on, but perhaps the first.
fn is_beside(x: usize, y: usize, n: usize) -> bool
    requires { y + n < 2 ^ 32 }
    ensures { result ≡ true → Beside x y n }
{
    x <= y || y + n <= x
}

// Whether a copy of n bytes meets none that it has overwritten.
pub fn is_clear(negative: bool, from: usize, to: usize, n: usize) -> bool
    requires { (from + n < 2 ^ 32) × (to + n < 2 ^ 32) }
    ensures { result ≡ true → Clear negative from to n }
{
    if negative {
        is_beside(from, to, n)
    } else {
        is_beside(to, from, n)
    }
}

// ---- rows

// The bytes of n pixels.
pub fn bytes_of(depth: usize, n: usize) -> usize
    requires { n * depth < 2 ^ 32 }
    ensures { result ≡ n * depth }
{
    n * depth
}

// Copies n pixels of row j, from column i, one after the other: each gets its source as it then stands. (`mixes::in_order` goes the same
// way and combines; here the value is stored as it is, which is the other half of the loop.)
fn smear(f: &mut [u8], b: Blt, s: Rectangle, i: usize, j: usize, n: usize)
    requires { (Row (length f.old) b i j n) × (0 < n) × (b.source ≡ Frame s) × (b.code ≡ 204) × (is_full b.pattern ≡ true) }
    ensures { f.new ≡ row_pixels b i j n f.old }
{
    let d = b.destination;
    let to = rectangle::pixel_byte(d, i, j);
    let from = rectangle::pixel_byte(s, i, j);
    for m in 0..n {
        let value = pixel::get(d.depth, f, rectangle::along(d.columns, from, m));
        let at = rectangle::along(d.columns, to, m);
        pixel::put(d.depth, f, at, value);
    }
}

// Copies them by one move, where it meets no byte that it has overwritten: `from` and `to` are the lowest bytes of the source and
// of the row.
pub fn copy_at(
    f: &mut [u8],
    b: Blt,
    s: Rectangle,
    from: usize,
    to: usize,
    i: usize,
    j: usize,
    n: usize,
)
    requires { (Row (length f.old) b i j n) × (0 < n) × (b.source ≡ Frame s) × (b.code ≡ 204) × (is_full b.pattern ≡ true) × (from ≡ low_byte s i j n) × (to ≡ low_byte b.destination i j n) × (Clear b.destination.columns.negative from to (n * b.destination.depth)) }
    ensures { f.new ≡ row_pixels b i j n f.old }
{
    move_bytes(f, from, to, bytes_of(b.destination.depth, n));
}

// Copies them by one move where it can, under raster operation CCh and a pattern that gives every pixel a value.
pub fn copy(f: &mut [u8], b: Blt, s: Rectangle, i: usize, j: usize, n: usize)
    requires { (Row (length f.old) b i j n) × (0 < n) × (b.source ≡ Frame s) × (b.code ≡ 204) × (is_full b.pattern ≡ true) }
    ensures { f.new ≡ row_pixels b i j n f.old }
{
    let d = b.destination;
    let from = rectangle::low_byte(s, i, j, n);
    let to = rectangle::low_byte(d, i, j, n);
    if is_clear(d.columns.negative, from, to, bytes_of(d.depth, n)) {
        copy_at(f, b, s, from, to, i, j, n);
    } else {
        smear(f, b, s, i, j, n);
    }
}
