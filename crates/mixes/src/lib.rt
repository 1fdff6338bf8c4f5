// Rows that combine a source in frame memory with what stands there, under any raster operation: by pieces of 16 bytes, whose source
// is read before the first of them is written. So the compiler combines a piece at once.
#![tactic(auto)]

ghost use Rattle.std.specs.Prelude.{◌≡◌, ◌+◌, ◌*◌, ◌/◌, ◌^◌, ◌≤◌, ◌<◌, length};
ghost use Rattle.model.specs.Formats.{Depth};
ghost use Rattle.model.specs.declared.Pattern.TheVariants.{Solid};
ghost use Rattle.model.specs.declared.Source.TheVariants.{Frame};
ghost use Rattle.laws.specs.Rows.{Row, row_pixels};
ghost use Rattle.laws.specs.Lows.{low_place};
ghost use Rattle.laws.specs.Changes.{changed_row};
ghost use Rattle.laws.specs.Words.{mix_rule, repeated};
ghost use Rattle.laws.specs.Mixes.{Ready};

use model::{Blt, Rectangle};
use pixel::{Operation, Pixel};

// ---- bytes

// Combines each word of a row with the one at the same place of t.
fn words(row: &mut [u8], t: &[u8], op: Operation)
    requires { length row.old ≤ length t.now }
    ensures { row.new ≡ changed_row 4 (mix_rule 4 op.code op.pattern t.now 0) (length row.old / 4) 0 row.old }
{
    for i in 0..row.len() / 4 {
        pixel::paint(row, op, 4, i * 4, u32::load(t, i * 4));
    }
}

// Combines the piece from byte `to` up with the one from `from` up: all of this is read before the first byte is written.
fn piece(f: &mut [u8], op: Operation, from: usize, to: usize)
    requires { (from + 16 ≤ length f.old) × (to + 16 ≤ length f.old) }
    ensures { f.new ≡ changed_row 4 (mix_rule 4 op.code op.pattern f.old from) 4 to f.old }
{
    let mut room = [0u8; 16];
    moves::lay(f, from, &mut room, 0, 16);
    words(&mut f[to..to + 16], &room, op);
}

// ---- pieces of a row

// The pixels of a piece: a number for each depth.
fn piece_of(depth: usize) -> usize
    requires { Depth depth }
    ensures some { 0 < result }
    ensures whole { result * depth ≡ 16 }
{
    match depth {
        1 => 16,
        2 => 8,
        _ => 4,
    }
}

// A colour, as often as it goes into a word: a rule for each depth.
fn repeat(depth: usize, color: u32) -> u32
    ensures { result ≡ repeated depth color }
{
    match depth {
        1 => color % 256 * 16843009,
        2 => color % 65536 * 65537,
        _ => color,
    }
}

// How far from the lowest byte of so many bytes piece k of `step` bytes lies, on its way along the row.
fn offset(negative: bool, size: usize, step: usize, k: usize) -> usize
    requires { step * k + step ≤ size }
    ensures { result ≡ low_place negative size (step * k) step }
{
    if negative {
        size - step * k - step
    } else {
        step * k
    }
}

// Combines the first of n pixels of row j, from column i, as many as make whole pieces, and says how many. None where a piece would
// meet a byte that it has overwritten. (Places are counted in bytes: by pixels each piece would cost a multiplication. The step is worked
// out and not written as 16, or the compiler joins pieces, and asks before each row whether that may be done.)
fn pieces(f: &mut [u8], b: Blt, op: Operation, s: Rectangle, i: usize, j: usize, n: usize) -> usize
    requires { (Row (length f.old) b i j n) × (0 < n) × (Ready b s op.code op.pattern) }
    ensures { (result ≤ n) × (f.new ≡ row_pixels b i j result f.old) }
{
    let d = b.destination;
    let c = piece_of(d.depth);
    let step = c * d.depth;
    let size = n * d.depth;
    if size < 16 {
        return 0;
    }
    let from = rectangle::low_byte(s, i, j, n);
    let to = rectangle::low_byte(d, i, j, n);
    if !moves::is_clear(d.columns.negative, from, to, 16) {
        return 0;
    }
    let count = size / 16;
    for k in 0..count {
        let x = offset(d.columns.negative, size, step, k);
        piece(f, op, from + x, to + x);
    }
    count * c
}

// ---- rows

// Combines n pixels one after the other: each finds its source as it then stands. (`moves::smear` goes the same way, and stores.)
fn in_order(f: &mut [u8], b: Blt, op: Operation, s: Rectangle, i: usize, j: usize, n: usize)
    requires { (Row (length f.old) b i j n) × (0 < n) × (Ready b s op.code op.pattern) }
    ensures { f.new ≡ row_pixels b i j n f.old }
{
    let d = b.destination;
    let to = rectangle::pixel_byte(d, i, j);
    let from = rectangle::pixel_byte(s, i, j);
    for m in 0..n {
        let source = pixel::get(d.depth, f, rectangle::along(d.columns, from, m));
        let at = rectangle::along(d.columns, to, m);
        pixel::paint(f, op, d.depth, at, source);
    }
}

// A solid pattern with a source in frame memory: by pieces, and the rest one after the other.
pub fn combine(f: &mut [u8], b: Blt, color: u32, s: Rectangle, i: usize, j: usize, n: usize)
    requires { (Row (length f.old) b i j n) × (0 < n) × (b.pattern ≡ Solid color) × (b.source ≡ Frame s) }
    ensures { f.new ≡ row_pixels b i j n f.old }
{
    let op = pixel::prepare(b.code, repeat(b.destination.depth, color));
    let m = pieces(f, b, op, s, i, j, n);
    if m < n {
        in_order(f, b, op, s, i + m, j, n - m);
    }
}
