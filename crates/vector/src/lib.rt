// Vectors: the registers that describe one, the steps from pixel to pixel, the bytes that it reaches, and its drawing.
// `RangedVector v` stands in the contracts: registers that judging refuses describe a vector without it, so it is no invariant of the type.
#![tactic(auto)]

ghost use Rattle.std.specs.Prelude.{◌≡◌, ◌||◌, ◌+◌, ◌^◌, ◌≤◌, ◌<◌, length, pos};
ghost use Rattle.std.specs.Int.Signed.{lt_z};
ghost use Rattle.model.specs.Limits.{frame_most, side_most};
ghost use Rattle.model.specs.VectorPixel.{signed16, vector_of, major_step, minor_step, moved, step, position, vector_outside, vector_extent};
ghost use Rattle.laws.specs.Order.{vector_pixels};
ghost use Rattle.laws.specs.Ranges.{RangedVector, FitVector};
ghost use Rattle.laws.specs.Walks.{Near};
ghost use Rattle.laws.specs.ClosedForm.{Terms, unbiased, error_at, diagonals};

use model::{
    Extent, PAT_COLOR_0, Position, RASTER_MODE, REGISTERS, SRC_COLOR_FG, STRIDE, VEC_ERR, VEC_LEN,
    VECTOR_MODE, Vector,
};

// ---- signed numbers

// What is added to a signed 16-bit number so that it is not below 0.
const BIAS: usize = 32768;

// A signed 16-bit number, biased.
fn biased(x: i16) -> usize
    ensures { (x ≡ unbiased result) × (result < 65536) }
{
    (i32::from(x) + 32768) as usize
}

// The signed number that a biased one stands for. `i16::try_from` would answer a Result that has no Err.
fn from_biased(x: usize) -> i16
    requires { x < 65536 }
    ensures { result ≡ unbiased x }
{
    (x as i32 - 32768) as i16
}

// A 16-bit field as a signed number.
fn signed(x: u32) -> i16
    requires { x < 65536 }
    ensures { result ≡ signed16 x }
{
    (x as u16).cast_signed()
}

// ---- what the registers describe

// The vector that the registers describe.
pub fn vector_of(registers: [u32; REGISTERS]) -> Vector
    ensures { result ≡ vector_of registers }
{
    let raster = registers[RASTER_MODE];
    let terms = registers[VEC_ERR];
    let size = registers[VEC_LEN];
    let mode = registers[VECTOR_MODE];
    let depth = fields::depth_of(fields::bits(raster, 31, 28));
    let code = fields::bits(raster, 7, 0);
    let offset = fields::destination_address(registers);
    let stride = fields::number(registers[STRIDE], 15, 0);
    let length = fields::number(size, 27, 16);
    let axial = signed(fields::bits(terms, 31, 16));
    let diagonal = signed(fields::bits(terms, 15, 0));
    let initial = signed(fields::bits(size, 15, 0));
    let ymajor = fields::is_set(mode, 0);
    let majorpositive = fields::is_set(mode, 1);
    let minorpositive = fields::is_set(mode, 2);
    Vector {
        depth,
        length,
        offset,
        stride,
        axial,
        diagonal,
        initial,
        ymajor,
        majorpositive,
        minorpositive,
        code,
        foreground: registers[SRC_COLOR_FG],
        color: registers[PAT_COLOR_0],
    }
}

// Whether the axial term is below 0 or the diagonal term above 0.
pub fn bad_terms(v: Vector) -> bool
    ensures { result ≡ (lt_z v.axial (pos 0) || lt_z (pos 0) v.diagonal) }
{
    v.axial < 0 || 0 < v.diagonal
}

// ---- the steps

// The bytes of a step along the major axis: a step in X is one pixel, a step in Y one destination stride.
fn major_step(v: Vector) -> usize
    ensures { result ≡ major_step v }
{
    if v.ymajor { v.stride } else { v.depth }
}

// The bytes of a step along the minor axis. That it is the other one of the two is plainest as a line of its own.
fn minor_step(v: Vector) -> usize
    ensures { result ≡ minor_step v }
{
    if v.ymajor { v.depth } else { v.stride }
}

// n bytes further, or back.
fn shifted(positive: bool, n: usize, s: Position) -> Position
    requires { (n < 2 ^ 32) × (s.plus < 2 ^ 33) × (s.minus < 2 ^ 33) }
    ensures { result ≡ moved positive n s }
{
    if positive {
        Position {
            plus: s.plus + n,
            ..s
        }
    } else {
        Position {
            minus: s.minus + n,
            ..s
        }
    }
}

// The next pixel's position. The error stays a signed 16-bit number: the axial term, not negative, is added to a negative
// error, and the diagonal term, not positive, to one that is not negative.
fn next(v: Vector, s: Position) -> Position
    requires { (RangedVector v) × (Near s) }
    ensures { result ≡ step v s }
{
    let along = shifted(v.majorpositive, major_step(v), s);
    if s.error < 0 {
        Position {
            error: s.error + v.axial,
            ..along
        }
    } else {
        let aside = shifted(v.minorpositive, minor_step(v), along);
        Position {
            error: s.error + v.diagonal,
            ..aside
        }
    }
}

// ---- the steps at once

// How many of the first k steps are diagonal, by the biased initial error and terms. Each lowers the error after k axial steps
// by the axial term less the diagonal one, as long as it stays at the diagonal term or above.
fn diagonal_steps(initial: usize, axial: usize, diagonal: usize, k: usize) -> usize
    requires { (Terms initial axial diagonal) × (k ≤ side_most) }
    ensures { result ≡ diagonals initial axial diagonal k }
{
    let total = initial + k * (axial - BIAS);
    let less = axial - diagonal;
    if total < diagonal {
        0
    } else if total - diagonal < k * less {
        (total - diagonal) / less
    } else {
        k
    }
}

// The biased error after k steps, n of them diagonal.
fn error_after(initial: usize, axial: usize, diagonal: usize, k: usize, n: usize) -> usize
    requires { (Terms initial axial diagonal) × (k ≤ side_most) × (n ≡ diagonals initial axial diagonal k) }
    ensures { (result ≡ error_at initial axial diagonal k) × (result < 65536) }
{
    initial + k * (axial - BIAS) - n * (axial - diagonal)
}

// The position of pixel k, at the same cost for each k.
fn position_of(v: Vector, k: usize) -> Position
    requires { (RangedVector v) × (k ≤ v.length) }
    ensures { result ≡ position v k }
{
    let initial = biased(v.initial);
    let axial = biased(v.axial);
    let diagonal = biased(v.diagonal);
    let n = diagonal_steps(initial, axial, diagonal, k);
    let error = error_after(initial, axial, diagonal, k, n);
    let first = Position {
        plus: 0,
        minus: 0,
        error: from_biased(error),
    };
    let along = shifted(v.majorpositive, k * major_step(v), first);
    shifted(v.minorpositive, n * minor_step(v), along)
}

// ---- frame memory

// Where the pixels of a vector lie in a frame memory of so many bytes. Every pixel is looked at: where the two signs differ, one
// in the middle can reach furthest.
pub fn extent(framelength: usize, v: Vector) -> Option<Extent>
    requires { RangedVector v }
    ensures { result ≡ vector_extent framelength v }
{
    let mut low = v.offset;
    let mut end = v.offset + v.depth;
    let mut s = position_of(v, 0);
    for k in 0..v.length {
        let sum = v.offset + s.plus;
        if sum < s.minus {
            return None;
        }
        let at = sum - s.minus;
        let after = at + v.depth;
        if framelength < after {
            return None;
        }
        low = low.min(at);
        end = end.max(after);
        s = next(v, s);
    }
    Some(Extent { low, high: end - 1 })
}

// Whether some byte of some pixel of the vector lies outside. No pixel has more added to its offset, or more taken away, than the
// last: where these two taken apart stay inside, so does every pixel, and no other is looked at.
pub fn outside(framelength: usize, v: Vector) -> bool
    requires { RangedVector v }
    ensures { result ≡ vector_outside framelength v }
{
    let last = position_of(v, v.length - 1);
    let top = v.offset + last.plus;
    if last.minus <= v.offset && top + v.depth <= framelength {
        return false;
    }
    extent(framelength, v).is_none()
}

// ---- drawing

// Draws n pixels of a vector, from pixel k.
pub fn draw(f: &mut [u8], v: Vector, k: usize, n: usize)
    requires { (FitVector (length f.old) v) × (k + n ≤ v.length) × (length f.old ≤ frame_most) }
    ensures { f.new ≡ vector_pixels v k n f.old }
{
    let blend = pixel::blend_of(v.code, v.color, v.foreground);
    let mut s = position_of(v, k);
    for i in 0..n {
        pixel::apply(f, v.depth, v.offset + s.plus - s.minus, blend);
        s = next(v, s);
    }
}
