// Rows of a BLT with a solid pattern and a mono source, as text is: n pixels of row j, from column i. Eight pixels are drawn at once, by a
// window of bits that is read before the first of them, wherever in a byte it begins.
#![tactic(auto)]

ghost use Rattle.std.specs.Prelude.{◌≡◌, true, ◌+◌, ◌-◌, ◌*◌, ◌/◌, ◌^◌, ◌≤◌, ◌<◌, length};
ghost use Rattle.model.specs.Rectangle.{pixel_byte};
ghost use Rattle.model.specs.declared.Pattern.TheVariants.{Solid};
ghost use Rattle.model.specs.declared.Source.TheVariants.{Bits};
ghost use Rattle.laws.specs.Rows.{Row, row_pixels};
ghost use Rattle.laws.specs.Eights.{whole_eights};
ghost use Rattle.laws.specs.Glyphs.{Inked, Window, Apart, Windowed};

use model::{Blt, MonoSource};
use pixel::{Inks, Pixel};

// A bit that is set after inversion draws the foreground, a clear one the background or, with transparency, nothing.
fn inks_of(b: Blt, color: u32, s: MonoSource) -> Inks<u32>
    requires { (b.pattern ≡ Solid color) × (b.source ≡ Bits s) }
    ensures { Inked b s result.set.flip result.set.keep result.clear.flip result.clear.keep }
{
    let foreground = pixel::blend_of(b.code, color, s.foreground);
    let background = pixel::blend_unless(s.transparent, b.code, color, s.background);
    if s.inversion {
        Inks {
            set: background,
            clear: foreground,
        }
    } else {
        Inks {
            set: foreground,
            clear: background,
        }
    }
}

// ---- windows of bits

// The bits of c pixels, the first in bit 7: those from bit number `shift` of byte q on, counted from the byte's top. Two bytes joined
// hold them, or one, then joined to itself, so that no byte beyond their bits is read.
fn window(f: &[u8], q: usize, shift: usize, c: usize) -> u32
    requires { (shift < 8) × (0 < c) × (c ≤ 8) × (q + (shift + c - 1) / 8 < length f.now) }
    ensures { Window f.now q shift c result }
{
    let first = u8::load(f, q).wide();
    let second = u8::load(f, q + (shift + c - 1) / 8).wide();
    ((first * 256 + second) >> (8 - shift)) % 256
}

// Whether n pixels from byte `to` up overwrite none of the bytes that hold their bits, from bit number `shift` of byte q on. Then
// several bits may be read before the first of their pixels is drawn.
fn is_apart(negative: bool, depth: usize, n: usize, to: usize, q: usize, shift: usize) -> bool
    requires { (0 < n) × (n < 2 ^ 32) × (n * depth < 2 ^ 32) × (to < 2 ^ 32) × (q < 2 ^ 32) × (shift < 8) }
    ensures { result ≡ true → Apart negative depth n to q shift }
{
    !negative && (q + (shift + n - 1) / 8 < to || to + n * depth <= q)
}

// ---- rows by windows

// Draws the first of n pixels of row j, from column i, as many as make whole eights, and says how many. They lie from byte `to` up,
// and their bits from bit number `shift` of byte q on.
fn eights(
    f: &mut [u8],
    b: Blt,
    inks: Inks<u32>,
    to: usize,
    q: usize,
    shift: usize,
    i: usize,
    j: usize,
    n: usize,
) -> usize
    requires { Windowed (length f.old) b i j n inks.set.flip inks.set.keep inks.clear.flip inks.clear.keep to q shift }
    ensures { (result ≡ whole_eights n) × (f.new ≡ row_pixels b i j result f.old) }
{
    let depth = b.destination.depth;
    for k in 0..n / 8 {
        let bits = window(f, q + k, shift, 8);
        writers::eight(f, depth, to + 8 * k * depth, bits, inks);
    }
    n - n % 8
}

// Draws all of them: by eights, and the rest, n % 8, by one window.
fn by_windows(
    f: &mut [u8],
    b: Blt,
    inks: Inks<u32>,
    to: usize,
    q: usize,
    shift: usize,
    i: usize,
    j: usize,
    n: usize,
)
    requires { Windowed (length f.old) b i j n inks.set.flip inks.set.keep inks.clear.flip inks.clear.keep to q shift }
    ensures { f.new ≡ row_pixels b i j n f.old }
{
    let depth = b.destination.depth;
    let m = eights(f, b, inks, to, q, shift, i, j, n);
    let c = n % 8;
    if c == 0 {
        return;
    }
    let bits = window(f, q + m / 8, shift, c);
    writers::few(f, depth, to + m * depth, bits, inks, c);
}

// ---- rows

// Draws n pixels one after the other: each finds its bit as it then stands.
fn in_order(
    f: &mut [u8],
    b: Blt,
    s: MonoSource,
    inks: Inks<u32>,
    to: usize,
    from: usize,
    i: usize,
    j: usize,
    n: usize,
)
    requires { (Row (length f.old) b i j n) × (Inked b s inks.set.flip inks.set.keep inks.clear.flip inks.clear.keep) × (to ≡ pixel_byte b.destination i j) × (from ≡ pixel_byte s.bytes 0 j) }
    ensures { f.new ≡ row_pixels b i j n f.old }
{
    for m in 0..n {
        let at = rectangle::along(b.destination.columns, to, m);
        let x = s.skip + (i + m);
        let byte = u8::load(f, from + x / 8);
        pixel::apply(f, b.destination.depth, at, inks.choose(u32::from(byte), x));
    }
}

// The row, whatever the raster code.
pub fn bits(f: &mut [u8], b: Blt, color: u32, s: MonoSource, i: usize, j: usize, n: usize)
    requires { (Row (length f.old) b i j n) × (0 < n) × (b.pattern ≡ Solid color) × (b.source ≡ Bits s) }
    ensures { f.new ≡ row_pixels b i j n f.old }
{
    let inks = inks_of(b, color, s);
    let d = b.destination;
    let to = rectangle::pixel_byte(d, i, j);
    let from = rectangle::pixel_byte(s.bytes, 0, j);
    let x = s.skip + i;
    let q = from + x / 8;
    let shift = x % 8;
    if is_apart(d.columns.negative, d.depth, n, to, q, shift) {
        by_windows(f, b, inks, to, q, shift, i, j, n);
    } else {
        in_order(f, b, s, inks, to, from, i, j, n);
    }
}
