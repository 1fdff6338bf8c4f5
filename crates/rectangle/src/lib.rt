// A rectangle of pixels in frame memory: where its pixels lie.
#![tactic(auto)]

ghost use Rattle.std.specs.Prelude.{◌≡◌, ◌+◌, ◌-◌, ◌/◌, ◌%◌, ◌^◌, ◌≤◌, ◌<◌};
ghost use Rattle.model.specs.Bounds.{added, taken};
ghost use Rattle.model.specs.Rectangle.{ahead, behind, pixel_byte, rectangle_extent};
ghost use Rattle.laws.specs.Ranges.{Ranged};
ghost use Rattle.laws.specs.Extremes.{Reached, Along, Follows};
ghost use Rattle.laws.specs.Lows.{low_column, low_byte};

use model::{Axis, Extent, Rectangle};

// What n bytes along an axis add to a position: none where it goes back.
fn further(negative: bool, n: usize) -> usize
    ensures value { result ≡ added negative n }
    ensures most { result ≤ n }
{
    if negative { 0 } else { n }
}

// What they take away.
fn back(negative: bool, n: usize) -> usize
    ensures value { result ≡ taken negative n }
    ensures most { result ≤ n }
{
    if negative { n } else { 0 }
}

// The lowest and the highest byte of a rectangle in a frame memory of so many bytes, or that some byte lies outside: by the
// extremes of the two axes. From the byte that the offset names a row reaches `across` bytes further or back.
pub fn extent(framelength: usize, r: Rectangle) -> Option<Extent>
    requires { Ranged r }
    ensures { result ≡ rectangle_extent framelength r }
{
    let across = (r.columns.count - 1) * r.columns.step + (r.depth - 1);
    let along = (r.rows.count - 1) * r.rows.step;
    let fall = back(r.columns.negative, across) + back(r.rows.negative, along);
    let rise = further(r.columns.negative, across) + further(r.rows.negative, along);
    if r.offset < fall || framelength <= r.offset + rise {
        None
    } else {
        Some(Extent {
            low: r.offset - fall,
            high: r.offset + rise,
        })
    }
}

// The first byte of the pixel at column i of row j. With X negative the offset names the last byte of the first pixel.
pub fn pixel_byte(r: Rectangle, i: usize, j: usize) -> usize
    requires { Reached r i j }
    ensures { result ≡ pixel_byte r i j }
{
    let across = i * r.columns.step;
    let along = j * r.rows.step;
    let plus = further(r.rows.negative, along);
    let minus = back(r.rows.negative, along);
    if r.columns.negative {
        r.offset + plus - (across + minus + (r.depth - 1))
    } else {
        r.offset + (across + plus) - minus
    }
}

// The byte m steps along an axis from byte `start`.
pub fn along(a: Axis, start: usize, m: usize) -> usize
    requires { Along a start m }
    ensures { result ≡ start + ahead a m - behind a m }
{
    let n = m * a.step;
    start + further(a.negative, n) - back(a.negative, n)
}

// The byte one step along it from byte `at`. Where that would lie below byte 0 there is none, and any number will do.
pub fn next(a: Axis, at: usize) -> usize
    requires { (at < 2 ^ 32) × (a.step < 2 ^ 32) }
    ensures { Follows a at result }
{
    if a.negative {
        at.saturating_sub(a.step)
    } else {
        at + a.step
    }
}

// The column of pixel k. Most commands begin at pixel 0, where a division would be felt.
pub fn column_of(k: usize, width: usize) -> usize
    requires { 0 < width }
    ensures { result ≡ k % width }
{
    if k == 0 { 0 } else { k % width }
}

// Its row, likewise.
pub fn row_of(k: usize, width: usize) -> usize
    requires { 0 < width }
    ensures { result ≡ k / width }
{
    if k == 0 { 0 } else { k / width }
}

// The lowest of n columns from column i.
pub fn low_column(negative: bool, i: usize, n: usize) -> usize
    requires { (0 < n) × (i + n < 2 ^ 32) }
    ensures { (result ≡ low_column negative i n) × (result < 2 ^ 32) }
{
    if negative { i + (n - 1) } else { i }
}

// The lowest byte of n pixels of row j, from column i.
pub fn low_byte(r: Rectangle, i: usize, j: usize, n: usize) -> usize
    requires { (0 < n) × (i + n < 2 ^ 32) × (Reached r (low_column r.columns.negative i n) j) }
    ensures { result ≡ low_byte r i j n }
{
    pixel_byte(r, low_column(r.columns.negative, i, n), j)
}
