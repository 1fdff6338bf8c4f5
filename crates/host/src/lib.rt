// Host sources: the pixels of a BLT that come through the ring, in the words of data commands. How they lie there, how many of them a
// data command feeds, and rows and spans of them.
// `RangedHost h` stands in the contracts: registers that judging refuses give a `Host` without it, so it is no invariant of the type.
#![tactic(auto)]

ghost use Rattle.std.specs.Prelude.{◌≡◌, true, [], ℕ, ◌+◌, ◌-◌, ◌*◌, ◌%◌, ◌^◌, ◌≤◌, ◌<◌, length, get_or, if◌then◌else◌, Some, None};
ghost use Rattle.model.specs.Bits.{bit, field};
ghost use Rattle.model.specs.Formats.{Depth, format_of, depth_of};
ghost use Rattle.model.specs.Registers.{format_code};
ghost use Rattle.model.specs.Expansion.{bit_number, expand as expandBit};
ghost use Rattle.model.specs.BltPixel.{mono_mode, tile_from};
ghost use Rattle.model.specs.Host.{starting_bit, bits_per_pixel, bytes_from, host_of, host_byte, host_word};
ghost use Rattle.model.specs.Unit.{pixel_count};
ghost use Rattle.model.specs.declared.Primitive.TheVariants.{Blt as BltPrimitive};
ghost use Rattle.laws.specs.Host.{RangedHost, columns_in, pixels_in};
ghost use Rattle.laws.specs.Moves.{Laid};
ghost use Rattle.laws.specs.Ranges.{FitPattern};
ghost use Rattle.laws.specs.Rows.{PixelOf};
ghost use Rattle.laws.specs.Pictures.{stream_word, host_at, host_pixels, length_from, word_bytes};
ghost use Rattle.host.specs.Pictures.{picture_of, patterned_at, tiled_at, Ranged, Held, BandFed, Copied, drawn_from};

use bands::RowPainter;
use model::{
    BLT_MODE, Blt, Host, MonoSource, Pattern, RASTER_MODE, REGISTERS, SRC_OFFSET, TABLE, WID_HEIGHT,
};
use pixel::Pixel;
use tiles::Tile;

// ---- where the pixels lie

// Bytes a pixel.
fn depth_of(registers: [u32; REGISTERS]) -> usize
    ensures { (result ≡ depth_of (format_of (format_code registers))) × (result ≤ 4) }
{
    fields::depth_of(fields::bits(registers[RASTER_MODE], 31, 28))
}

// How many bits of a row's first byte are skipped.
fn starting_bit(registers: [u32; REGISTERS], mono: bool) -> usize
    requires { mono ≡ mono_mode registers }
    ensures { (result ≡ starting_bit registers) × (result < 8) }
{
    if mono {
        fields::number(registers[SRC_OFFSET], 28, 26)
    } else {
        0
    }
}

// Bits a pixel.
fn bits_per_pixel(registers: [u32; REGISTERS], mono: bool) -> usize
    requires { mono ≡ mono_mode registers }
    ensures { (result ≡ bits_per_pixel registers) × (result ≤ 32) }
{
    if mono { 1 } else { 8 * depth_of(registers) }
}

// How a BLT's pixels lie in its data words.
#[tactic(auto, unfolding(model::specs::Host::host_of))]
pub fn host_of(registers: [u32; REGISTERS]) -> Host
    ensures { result ≡ host_of registers }
{
    let mono = blt::is_mono(registers);
    let first = fields::number(registers[SRC_OFFSET], 1, 0);
    let skip = starting_bit(registers, mono);
    let bits = bits_per_pixel(registers, mono);
    let width = fields::number(registers[WID_HEIGHT], 27, 16);
    let row = (skip + width * bits + 7) / 8;
    let stride = if fields::bits(registers[BLT_MODE], 7, 6) == 0b10 {
        row
    } else {
        (first + row + 3) / 4 * 4
    };
    Host {
        first,
        stride,
        skip,
        bits,
    }
}

// The byte in which the pixel at column i of row j begins.
fn byte_of(h: Host, i: usize, j: usize) -> usize
    requires { (RangedHost h) × (i < 4096) × (j < 4096) }
    ensures { (result ≡ host_byte h i j) × (result < 2 ^ 32) }
{
    h.first + j * h.stride + (h.skip + i * h.bits) / 8
}

// The word that holds pixel k.
pub fn word_of(registers: [u32; REGISTERS], k: usize) -> usize
    requires { (Depth (depth_of (format_of (format_code registers)))) × (k < pixel_count BltPrimitive registers) }
    ensures { (result ≡ host_word registers k) × (result < 2 ^ 32) }
{
    let width = fields::number(registers[WID_HEIGHT], 27, 16);
    let i = rectangle::column_of(k, width);
    let j = rectangle::row_of(k, width);
    byte_of(host_of(registers), i, j) / 4
}

// ---- how many pixels a data command feeds

// Of a row of `width` pixels, how many begin in its first `bytes` bytes.
#[tactic(auto, unfolding(laws::specs::Host::columns_in))]
fn columns_in(h: Host, width: usize, bytes: usize) -> usize
    requires { (RangedHost h) × (bytes < 2 ^ 48) }
    ensures { (result ≡ columns_in h width bytes) × (result ≤ width) }
{
    let n = ((8 * bytes).saturating_sub(h.skip) + h.bits - 1) / h.bits;
    width.min(n)
}

// Of all rows, how many begin in the first `bytes` bytes of all words.
fn pixels_in(h: Host, width: usize, bytes: usize) -> usize
    requires { (RangedHost h) × (0 < h.stride) × (width < 4096) × (bytes < 2 ^ 48) }
    ensures { result ≡ pixels_in h width bytes }
{
    let rest = bytes.saturating_sub(h.first);
    let rows = rest / h.stride;
    rows * width + columns_in(h, width, rest % h.stride)
}

// How many of the pixels from k on lie before a word and are allowed by a budget; pixel k itself lies before it.
pub fn span(registers: [u32; REGISTERS], k: usize, word: usize, left: u32) -> u32
    requires { (Depth (depth_of (format_of (format_code registers)))) × (k < pixel_count BltPrimitive registers) × (host_word registers k < word) × (word < 2 ^ 34) × (0 < left) }
    ensures { (0 < result) × (result ≤ left) × (k + result ≤ pixel_count BltPrimitive registers) × ((x : ℕ) → x < result → host_word registers (k + x) < word) }
{
    let width = fields::number(registers[WID_HEIGHT], 27, 16);
    let height = fields::number(registers[WID_HEIGHT], 11, 0);
    let there = pixels_in(host_of(registers), width, 4 * word);
    let end = there.min(width * height);
    let rest = end.saturating_sub(k);
    if rest < 2 {
        1
    } else {
        rest.min(left as usize) as u32
    }
}

// How many of n pixels from k on are of the row that pixel k is in.
pub fn row_rest(registers: [u32; REGISTERS], k: usize, n: usize) -> usize
    ensures { result ≤ n }
{
    let width = fields::number(registers[WID_HEIGHT], 27, 16);
    if width == 0 {
        n
    } else {
        n.min(width - k % width)
    }
}

// ---- pixels

// A BLT with host source as its registers describe it: how its pixels lie in its data words, whether they are bits, and what becomes
// of these.
#[derive(Clone, Copy)]
pub struct Picture {
    pub blt: Blt,
    pub host: Host,
    pub mono: bool,
    pub bits: MonoSource,
}

#[tactic(auto, unfolding(crate::specs::Pictures::picture_of))]
fn picture_of(registers: [u32; REGISTERS]) -> Picture
    ensures { result ≡ picture_of registers }
{
    Picture {
        blt: blt::blt_of(registers),
        host: host_of(registers),
        mono: blt::is_mono(registers),
        bits: blt::mono_source_of(registers),
    }
}

// What a word gives the pixel of column i that begins in its byte n.
fn value_of(p: &Picture, depth: usize, word: u32, n: usize, i: usize) -> Option<u32>
    requires { (Depth depth) × (n < 4) × (p.now.bits.skip < 8) × (i < 4096) }
    ensures { result ≡ (if p.now.mono then expandBit p.now.bits (bit (bytes_from 1 word n) (bit_number p.now.bits.skip i)) else Some (bytes_from depth word n)) }
{
    let lower = word >> (8 * n);
    if p.mono {
        let x = p.bits.skip + i;
        let byte = lower % 256;
        operands::expand(p.bits, (byte >> (7 - x % 8)) % 2)
    } else {
        Some(tiles::low_bytes(lower, depth))
    }
}

// A picture and what feeds it: the data command at `read`, before whose own words `before` words came.
#[derive(Clone, Copy)]
pub struct HostRows<'a> {
    pub ring: &'a [u32],
    pub picture: Picture,
    pub read: usize,
    pub before: usize,
    pub ghost within: { read < length ring.now },
    pub ghost ranged: { Ranged picture },
}

impl<'a> HostRows<'a> {
    // Draws the pixel at column i of row j with this pattern in place of the picture's.
    fn draw_pixel(&self, f: &mut [u8], pattern: Pattern, i: usize, j: usize)
        requires pixel { PixelOf (length f.old) self.now.picture.blt i j }
        requires fit { FitPattern pattern }
        requires held { Held (length self.now.ring.now) self.now.picture.host self.now.before i j }
        ensures { f.new ≡ patterned_at pattern self.now.picture (stream_word self.now.ring.now self.now.read self.now.before) i j f.old }
    {
        let at = byte_of(self.picture.host, i, j);
        let word = ring::word_at(self.ring, self.read, 2 + (at / 4 - self.before));
        let d = self.picture.blt.destination;
        let value = value_of(&self.picture, d.depth, word, at % 4, i);
        let o = operands::with_source(pattern, d, i, j, value);
        operands::draw(
            f,
            d.depth,
            self.picture.blt.code,
            rectangle::pixel_byte(d, i, j),
            o,
        );
    }
}

// ---- rows of any code and pattern

impl<'a> RowPainter for HostRows<'a> {
    ghost blt = { λ s. s.picture.blt };

    ghost pixel = { λ s. host_at None [] s.picture.blt s.picture.host s.picture.mono s.picture.bits (stream_word s.ring.now s.read s.before) };

    ghost asks = { λ s. Held (length s.ring.now) s.picture.host s.before };

    fn width(&self) -> usize {
        self.picture.blt.destination.columns.count
    }

    fn paint(&self, f: &mut [u8], i: usize, j: usize, n: usize) {
        for m in 0..n {
            self.draw_pixel(f, self.picture.blt.pattern, i + m, j);
        }
    }

    ghost keeps = { λ s i j. length_from _ i j _ };
}

// ---- rows of a colour pattern: each pixel is one of a solid pattern

#[derive(Clone, Copy)]
pub struct HostTileRows<'a> {
    pub rows: &'a HostRows<'a>,
    pub tile: &'a Tile,
}

impl<'a> RowPainter for HostTileRows<'a> {
    ghost blt = { λ s. s.rows.now.picture.blt };

    ghost pixel = { λ s. tiled_at s.tile.now.colors s.tile.now.row s.tile.now.column s.rows.now.picture (stream_word s.rows.now.ring.now s.rows.now.read s.rows.now.before) };

    ghost asks = { λ s. Held (length s.rows.now.ring.now) s.rows.now.picture.host s.rows.now.before };

    fn width(&self) -> usize {
        self.rows.picture.blt.destination.columns.count
    }

    fn paint(&self, f: &mut [u8], i: usize, j: usize, n: usize) {
        let d = self.rows.picture.blt.destination;
        for m in 0..n {
            let color = self.tile.color_at(d, i + m, j);
            self.rows.draw_pixel(f, Pattern::Solid(color), i + m, j);
        }
    }

    ghost keeps = { λ s i j. length_from _ i j _ };
}

// ---- rows that are copied out of the ring: raster operation CCh

// A byte of the ring's words.
fn byte_in(ring: &[u32], at: usize) -> u8
    requires { at < 4 * length ring.now }
    ensures { result ≡ get_or (word_bytes ring.now) at 0 }
{
    let word = ring[at / 4];
    ((word >> (8 * (at % 4))) % 256) as u8
}

// Lays the ring's bytes from `from` on into t from `to` on: those of numbers a to e.
fn lay_bytes(ring: &[u32], from: usize, t: &mut [u8], to: usize, a: usize, e: usize)
    requires { (a ≤ e) × (from + e ≤ 4 * length ring.now) × (to + e ≤ length t.old) }
    ensures { Laid (word_bytes ring.now) from to a e t.old t.new }
{
    for i in a..e {
        t[to + i] = byte_in(ring, from + i);
    }
}

// The same, whole words at a time.
fn lay_fours(ring: &[u32], from: usize, t: &mut [u8], to: usize, a: usize, n: usize)
    requires { (0 < n → (from + a) % 4 ≡ 0) × (from + a + 4 * n ≤ 4 * length ring.now) × (to + a + 4 * n ≤ length t.old) }
    ensures { Laid (word_bytes ring.now) from to a (a + 4 * n) t.old t.new }
{
    let first = (from + a) / 4;
    let at = to + a;
    for i in 0..n {
        ring[first + i].store(t, at + 4 * i);
    }
}

// All n bytes from `from` on.
fn lay(ring: &[u32], from: usize, t: &mut [u8], to: usize, n: usize)
    requires { (from + n ≤ 4 * length ring.now) × (to + n ≤ length t.old) }
    ensures { Laid (word_bytes ring.now) from to 0 n t.old t.new }
{
    let head = n.min((4 - from % 4) % 4);
    let fours = (n - head) / 4;
    lay_bytes(ring, from, t, to, 0, head);
    lay_fours(ring, from, t, to, head, fours);
    lay_bytes(ring, from, t, to, head + 4 * fours, n);
}

// Whether each pixel gets its source as it is, one beside the other.
fn is_copied(p: &Picture) -> bool
    ensures { result ≡ true → Copied p.now }
{
    p.blt.code == 0xCC
        && !p.mono
        && !p.blt.destination.columns.negative
        && blt::is_full(p.blt.pattern)
}

#[derive(Clone, Copy)]
pub struct HostCopyRows<'a> {
    pub rows: &'a HostRows<'a>,
    pub ghost copied: { Copied rows.now.picture },
}

impl<'a> RowPainter for HostCopyRows<'a> {
    ghost blt = { λ s. s.rows.now.picture.blt };

    ghost pixel = { λ s. host_at None [] s.rows.now.picture.blt s.rows.now.picture.host s.rows.now.picture.mono s.rows.now.picture.bits (stream_word s.rows.now.ring.now s.rows.now.read s.rows.now.before) };

    ghost asks = { λ s. Held (length s.rows.now.ring.now) s.rows.now.picture.host s.rows.now.before };

    fn width(&self) -> usize {
        self.rows.picture.blt.destination.columns.count
    }

    // The bytes of a row at once, unless its words run across the ring's end.
    fn paint(&self, f: &mut [u8], i: usize, j: usize, n: usize) {
        let rows = self.rows;
        let at = byte_of(rows.picture.host, i, j);
        let size = rows.ring.len();
        let place = command::ahead(size, rows.read, 2 + (at / 4 - rows.before));
        let from = 4 * place + at % 4;
        let d = rows.picture.blt.destination;
        let bytes = n * d.depth;
        if from + bytes <= 4 * size {
            lay(rows.ring, from, f, rectangle::low_byte(d, i, j, n), bytes);
        } else {
            rows.paint(f, i, j, n);
        }
    }

    ghost keeps = { λ s i j. length_from _ i j _ };
}

// ---- spans: n pixels from pixel k

// With the tile that stands in the lookup table; `origin` is the offset register whose low bits say where in the tile the first pixel
// lies.
fn draw_colors(f: &mut [u8], rows: &HostRows, table: &[u32; TABLE], origin: u32, k: usize, n: usize)
    requires { BandFed (length f.old) (length rows.now.ring.now) rows.now.picture rows.now.before k n }
    ensures { f.new ≡ host_pixels (tile_from (field origin 31 29) (field origin 28 26)) table.now rows.now.picture.blt rows.now.picture.host rows.now.picture.mono rows.now.picture.bits (stream_word rows.now.ring.now rows.now.read rows.now.before) k n f.old }
{
    let tile = Tile {
        colors: tiles::tile_of(table, rows.picture.blt.destination.depth),
        row: fields::number(origin, 31, 29),
        column: fields::number(origin, 28, 26),
    };
    bands::paint(f, &HostTileRows { rows, tile: &tile }, k, n);
}

// Without one.
fn draw_plain(f: &mut [u8], rows: &HostRows, k: usize, n: usize)
    requires { BandFed (length f.old) (length rows.now.ring.now) rows.now.picture rows.now.before k n }
    ensures { f.new ≡ host_pixels None [] rows.now.picture.blt rows.now.picture.host rows.now.picture.mono rows.now.picture.bits (stream_word rows.now.ring.now rows.now.read rows.now.before) k n f.old }
{
    if is_copied(&rows.picture) {
        bands::paint(f, &HostCopyRows { rows }, k, n);
    } else {
        bands::paint(f, rows, k, n);
    }
}

// Draws n pixels of a BLT that judging accepts, from pixel k, by the words of the data command at `read`, before whose own `before`
// words came.
pub fn draw(
    f: &mut [u8],
    ring: &[u32],
    registers: [u32; REGISTERS],
    table: &[u32; TABLE],
    read: usize,
    before: usize,
    k: usize,
    n: usize,
)
    requires { (BandFed (length f.old) (length ring.now) (picture_of registers) before k n) × (read < length ring.now) }
    ensures { f.new ≡ drawn_from registers table.now (stream_word ring.now read before) k n f.old }
{
    if n == 0 {
        return;
    }
    let rows = HostRows {
        ring,
        picture: picture_of(registers),
        read,
        before,
    };
    match blt::tile_origin(registers) {
        Some(origin) => draw_colors(f, &rows, table, origin, k, n),
        None => draw_plain(f, &rows, k, n),
    }
}
