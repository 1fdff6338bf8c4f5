// Colour patterns: the tile in the lookup table, and rows of a BLT that has one.
#![tactic(auto)]

ghost use Rattle.std.specs.Prelude.{◌≡◌, [], ◌+◌, ◌*◌, ◌/◌, ◌%◌, ◌^◌, ◌≤◌, ◌<◌, length, get_or};
ghost use Rattle.model.specs.Formats.{Depth};
ghost use Rattle.model.specs.Lookup.{tile_color};
ghost use Rattle.model.specs.BltPixel.{with_color};
ghost use Rattle.model.specs.Pixel.{store_pixel};
ghost use Rattle.laws.specs.Rows.{Row};
ghost use Rattle.laws.specs.Changes.{changed_row};
ghost use Rattle.laws.specs.Eights.{whole_eights};
ghost use Rattle.laws.specs.Plain.{Served};
ghost use Rattle.laws.specs.Tiles.{up_to, tile_of, color_in, tile_row, Colors};
ghost use Rattle.tiles.specs.Packed.{two, word_of, halves_of};

use model::{Blt, Pattern, Rectangle, TABLE, TILE};

// A colour pattern ready to draw: its colours by pattern row and column, and the row and column of the first pixel.
#[derive(Clone, Copy)]
pub struct Tile {
    pub colors: [[u32; 8]; 8],
    pub row: usize,
    pub column: usize,
    pub ghost row_inside: { row < 8 },
    pub ghost column_inside: { column < 8 },
}

// ---- the tile

// The low bytes of a number, as many as a pixel has. (What `Pixel::low` gives, where the width is a number still.)
pub fn low_bytes(v: u32, depth: usize) -> u32
    requires { Depth depth }
    ensures { result ≡ v % 2 ^ (8 * depth) }
{
    match depth {
        1 => v % 256,
        2 => v % 65536,
        _ => v,
    }
}

// The colour at a row and a column.
fn color_of(table: &[u32; TABLE], depth: usize, row: usize, column: usize) -> u32
    requires { (Depth depth) × (row < 8) × (column < 8) }
    ensures { result ≡ tile_color depth table.now row column }
{
    let at = (8 * row + column) * depth;
    let word = table[TILE + at / 4];
    low_bytes(word >> (8 * (at % 4)), depth)
}

// The eight colours of a row.
fn row_of(table: &[u32; TABLE], depth: usize, row: usize) -> [u32; 8]
    requires { (Depth depth) × (row < 8) }
    ensures { result ≡ up_to 8 (tile_color depth table.now row) }
{
    let mut colors = [0u32; 8];
    for column in 0..8 {
        colors[column] = color_of(table, depth, row, column);
    }
    colors
}

// The tile, by row and column.
pub fn tile_of(table: &[u32; TABLE], depth: usize) -> [[u32; 8]; 8]
    requires { Depth depth }
    ensures { result ≡ tile_of depth table.now }
{
    let mut tile = [[0u32; 8]; 8];
    for row in 0..8 {
        tile[row] = row_of(table, depth, row);
    }
    tile
}

// ---- row writers: eight colours in turn

// Stores the first c at the pixels from a byte on: values in turn, where `writers::few` blends by bits.
fn few(row: &mut [u8], depth: usize, at: usize, colors: [u32; 8], c: usize)
    requires { (Depth depth) × (c ≤ 8) × (at + c * depth ≤ length row.old) }
    ensures { row.new ≡ changed_row depth (λ m old. get_or colors (m % 8) 0) c at row.old }
{
    for x in 0..c {
        pixel::put(depth, row, at + x * depth, colors[x]);
    }
}

// Writes all eight bytes of a number at a byte of a row.
fn put8(row: &mut [u8], at: usize, value: u64)
    requires { at + 8 ≤ length row.old }
    ensures { row.new ≡ store_pixel 8 row.old at value }
{
    let b = at + 1;
    let c = b + 1;
    let d = c + 1;
    let e = d + 1;
    let g = e + 1;
    let h = g + 1;
    let i = h + 1;
    row[at] = (value % 256) as u8;
    row[b] = (value / 256 % 256) as u8;
    row[c] = (value / 256 / 256 % 256) as u8;
    row[d] = (value / 256 / 256 / 256 % 256) as u8;
    row[e] = (value / 256 / 256 / 256 / 256 % 256) as u8;
    row[g] = (value / 256 / 256 / 256 / 256 / 256 % 256) as u8;
    row[h] = (value / 256 / 256 / 256 / 256 / 256 / 256 % 256) as u8;
    row[i] = (value / 256 / 256 / 256 / 256 / 256 / 256 / 256 % 256) as u8;
}

// Stores two words, one after the other, at once.
fn pair(row: &mut [u8], at: usize, low: u32, high: u32)
    requires { at + 8 ≤ length row.old }
    ensures { row.new ≡ two 4 row.old at low high }
{
    let value = low as u64 + 4294967296 * (high as u64);
    put8(row, at, value);
}

// Four colours of one byte as a word.
fn word(colors: [u32; 8], x: usize) -> u32
    requires { x + 4 ≤ 8 }
    ensures { result ≡ word_of colors x }
{
    let upper = colors[x + 2] % 256 + 256 * (colors[x + 3] % 256);
    colors[x] % 256 + 256 * (colors[x + 1] % 256 + 256 * upper)
}

// Two colours of two bytes as a word.
fn halves(colors: [u32; 8], x: usize) -> u32
    requires { x + 2 ≤ 8 }
    ensures { result ≡ halves_of colors x }
{
    colors[x] % 65536 + 65536 * (colors[x + 1] % 65536)
}

// Stores all eight colours at pixels of one byte. (A function for each depth, and a `while` over them: the bytes of all eight, made once and
// laid anew for every depth, took up to eight times as long in long rows, `colour F0` in bench/run.)
fn eight1(row: &mut [u8], at: usize, colors: [u32; 8])
    requires { at + 8 ≤ length row.old }
    ensures { row.new ≡ changed_row 1 (λ m old. get_or colors (m % 8) 0) 8 at row.old }
{
    let low = word(colors, 0);
    let high = word(colors, 4);
    pair(row, at, low, high);
}

// The same of two bytes.
fn eight2(row: &mut [u8], at: usize, colors: [u32; 8])
    requires { at + 16 ≤ length row.old }
    ensures { row.new ≡ changed_row 2 (λ m old. get_or colors (m % 8) 0) 8 at row.old }
{
    let a = halves(colors, 0);
    let b = halves(colors, 2);
    let c = halves(colors, 4);
    let d = halves(colors, 6);
    pair(row, at, a, b);
    pair(row, at + 8, c, d);
}

// The same of four bytes.
fn eight4(row: &mut [u8], at: usize, colors: [u32; 8])
    requires { at + 32 ≤ length row.old }
    ensures { row.new ≡ changed_row 4 (λ m old. get_or colors (m % 8) 0) 8 at row.old }
{
    pair(row, at, colors[0], colors[1]);
    pair(row, at + 8, colors[2], colors[3]);
    pair(row, at + 16, colors[4], colors[5]);
    pair(row, at + 24, colors[6], colors[7]);
}

// Stores all eight at the pixels from a byte on.
fn eight(row: &mut [u8], depth: usize, at: usize, colors: [u32; 8])
    requires { (Depth depth) × (at + 8 * depth ≤ length row.old) }
    ensures { row.new ≡ changed_row depth (λ m old. get_or colors (m % 8) 0) 8 at row.old }
{
    if depth == 1 {
        eight1(row, at, colors);
        return;
    }
    if depth == 2 {
        eight2(row, at, colors);
        return;
    }
    eight4(row, at, colors);
}

// Stores all eight, again and again, at as many pixels of a row as make whole eights.
fn eights(row: &mut [u8], depth: usize, colors: [u32; 8])
    requires { Depth depth }
    ensures { row.new ≡ changed_row depth (λ m old. get_or colors (m % 8) 0) (whole_eights (length row.old / depth)) 0 row.old }
{
    let n = row.len() / depth;
    let mut i = 0;
    while i + 8 <= n {
        eight(row, depth, i * depth, colors);
        i += 8;
    }
}

// Stores the eight in turn at each pixel of a row.
fn store_all(row: &mut [u8], depth: usize, colors: [u32; 8])
    requires { Depth depth }
    ensures { row.new ≡ changed_row depth (λ m old. get_or colors (m % 8) 0) (length row.old / depth) 0 row.old }
{
    let n = row.len() / depth;
    eights(row, depth, colors);
    let c = n % 8;
    few(row, depth, (n - c) * depth, colors, c);
}

// The same. The compiler makes a loop of its own for each depth that it is told. (Eight bytes are laid at once whatever the depth, so no
// `Work` of `writers` over the pixel's type is made of it.)
fn store(row: &mut [u8], depth: usize, colors: [u32; 8])
    requires { Depth depth }
    ensures { row.new ≡ changed_row depth (λ m old. get_or colors (m % 8) 0) (length row.old / depth) 0 row.old }
{
    match depth {
        1 => store_all(row, 1, colors),
        2 => store_all(row, 2, colors),
        _ => store_all(row, 4, colors),
    }
}

// ---- rows

impl Tile {
    // The colours of a row, from a column on and round.
    fn turned(&self, row: usize, column: usize) -> [u32; 8]
        requires row_inside { row < 8 }
        requires column_inside { column < 8 }
        ensures { result ≡ up_to 8 (λ x. get_or (get_or self.now.colors row []) ((column + x) % 8) 0) }
    {
        let mut colors = [0u32; 8];
        for x in 0..8 {
            colors[x] = self.colors[row][(column + x) % 8];
        }
        colors
    }

    // The colours of n pixels of row j, from column i, in turn from the lowest up.
    fn colors_of(&self, b: Blt, i: usize, j: usize, n: usize) -> [u32; 8]
        requires some { 0 < n }
        requires columns_near { i + n < 2 ^ 32 }
        requires row_near { j < 2 ^ 32 }
        ensures { Colors self.now.colors self.now.row self.now.column b i j n result }
    {
        let d = b.destination;
        let low = rectangle::low_column(d.columns.negative, i, n);
        let y = pixel::pattern_index(d.rows.negative, self.row, j);
        let x = pixel::pattern_index(d.columns.negative, self.column, low);
        self.turned(y, x)
    }

    // The colour at column i of row j.
    pub fn color_at(&self, d: Rectangle, i: usize, j: usize) -> u32
        requires { (i < 2 ^ 32) × (j < 2 ^ 32) }
        ensures { result ≡ color_in self.now.colors d self.now.row self.now.column i j }
    {
        let y = pixel::pattern_index(d.rows.negative, self.row, j);
        let x = pixel::pattern_index(d.columns.negative, self.column, i);
        self.colors[y][x]
    }
}

// A row under raster operation F0h, where one value serves as the source: its bytes are lent to the row writer.
pub fn fill(f: &mut [u8], b: Blt, tile: &Tile, i: usize, j: usize, n: usize)
    requires { (Row (length f.old) b i j n) × (0 < n) × (b.code ≡ 240) × (Served b.code b.source) }
    ensures { f.new ≡ tile_row tile.now.colors tile.now.row tile.now.column b i j n f.old }
{
    let colors = tile.colors_of(b, i, j, n);
    let d = b.destination;
    let a = rectangle::low_byte(d, i, j, n);
    store(&mut f[a..a + n * d.depth], d.depth, colors);
}

// The BLT with a solid pattern in place of its pattern.
pub fn with_color(b: Blt, color: u32) -> Blt
    ensures { result ≡ with_color b color }
{
    Blt {
        pattern: Pattern::Solid(color),
        ..b
    }
}

// A row of any raster operation and source: each pixel is one of a solid pattern.
pub fn general(f: &mut [u8], b: Blt, tile: &Tile, i: usize, j: usize, n: usize)
    requires { Row (length f.old) b i j n }
    ensures { f.new ≡ tile_row tile.now.colors tile.now.row tile.now.column b i j n f.old }
{
    let d = b.destination;
    for m in 0..n {
        let x = i + m;
        let color = tile.color_at(d, x, j);
        let o = operands::at(f, with_color(b, color), x, j);
        operands::draw(f, d.depth, b.code, rectangle::pixel_byte(d, x, j), o);
    }
}
