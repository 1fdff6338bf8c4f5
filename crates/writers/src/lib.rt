// Row writers: lent the bytes of one row, they change each of its pixels, from the lowest up. Each is written once, over the pixel's
// width, and the compiler makes a loop with wide loads and stores of it for every width.
#![tactic(auto)]

ghost use Rattle.std.specs.Prelude.{◌≡◌, ◌+◌, ◌-◌, ◌*◌, ◌/◌, ◌%◌, ◌≤◌, ℕ, List, length, ⊤};
ghost use Rattle.model.specs.Formats.{Depth};
ghost use Rattle.laws.specs.Order.{in_order};
ghost use Rattle.laws.specs.Whole.{blended};
ghost use Rattle.laws.specs.Changes.{changed_at, changed_row};
ghost use Rattle.laws.specs.Eights.{whole_eights};
ghost use Rattle.laws.specs.Plain.{mark_rule, Narrow};

use pixel::{Blend, Inks, Pixel};

// ---- the depth becomes a type

// Work on the bytes of pixels, of any width.
trait Work {
    ghost can: { Self → ℕ → List ℕ → Type 0 };

    ghost gives: { Self → ℕ → List ℕ → List ℕ };

    fn at<P: Pixel>(self, row: &mut [u8])
        requires { can self P.BYTES row.old }
        ensures { row.new ≡ gives self P.BYTES row.old };
}

// Does it at a depth.
fn at_depth<W: Work>(work: W, row: &mut [u8], depth: usize)
    requires deep { Depth depth }
    requires can { W.can work depth row.old }
    ensures { row.new ≡ W.gives work depth row.old }
{
    match depth {
        1 => work.at::<u8>(row),
        2 => work.at::<u16>(row),
        _ => work.at::<u32>(row),
    }
}

// ---- one value

#[derive(Clone, Copy)]
struct OneValue {
    value: u32,
}

impl Work for OneValue {
    ghost can = { λ w depth row. ⊤ };

    ghost gives = { λ w depth row. changed_row depth (λ m old. w.value) (length row / depth) 0 row };

    fn at<P: Pixel>(self, row: &mut [u8]) {
        let value = P::low(self.value);
        for i in 0..row.len() / P::BYTES {
            value.store(row, i * P::BYTES);
        }
    }
}

// Stores a value at each pixel of a row.
pub fn fill(row: &mut [u8], depth: usize, value: u32)
    requires { Depth depth }
    ensures { row.new ≡ changed_row depth (λ m old. value) (length row.old / depth) 0 row.old }
{
    at_depth(OneValue { value }, row, depth);
}

// ---- one blend

#[derive(Clone, Copy)]
struct OneBlend {
    blend: Blend<u32>,
}

impl Work for OneBlend {
    ghost can = { λ w depth row. ⊤ };

    ghost gives = { λ w depth row. changed_row depth (λ m. blended w.blend.flip w.blend.keep) (length row / depth) 0 row };

    fn at<P: Pixel>(self, row: &mut [u8]) {
        let blend = Blend::<P>::narrow(self.blend);
        for i in 0..row.len() / P::BYTES {
            blend.apply(row, i * P::BYTES);
        }
    }
}

// Applies a blend to each pixel of a row.
pub fn blend(row: &mut [u8], depth: usize, b: Blend<u32>)
    requires { Depth depth }
    ensures { row.new ≡ changed_row depth (λ m. blended b.flip b.keep) (length row.old / depth) 0 row.old }
{
    at_depth(OneBlend { blend: b }, row, depth);
}

// ---- one of two blends, by eight bits that come round

// Eight bits, in two bytes, with what becomes of the pixels that they say, as wide as these: or the compiler widens each pixel to four
// bytes.
#[derive(Clone, Copy)]
struct ByBits<P> {
    bits: u16,
    inks: Inks<P>,
}

impl<P: Pixel> ByBits<P> {
    // Above the eight bits stand the same eight: of one byte alone the compiler would test bit 7 by its sign, apart from the others.
    fn of(bits: u32, inks: Inks<u32>) -> ByBits<P>
        ensures bits { result.bits % 256 ≡ bits % 256 }
        ensures set { Narrow P.BYTES inks.set.flip inks.set.keep (P.number result.inks.set.flip) (P.number result.inks.set.keep) }
        ensures clear { Narrow P.BYTES inks.clear.flip inks.clear.keep (P.number result.inks.clear.flip) (P.number result.inks.clear.keep) }
    {
        ByBits {
            bits: (257 * (bits % 256)) as u16,
            inks: Inks::narrow(inks),
        }
    }

    // Applies to N pixels from a byte on the blends that their bits say. N is a part of the function, so that the compiler makes N lanes of it
    // before it sees what the blends were narrowed from. Each value is picked for itself: a blend picked whole is one number to the compiler.
    fn lanes<const N: usize>(self, row: &mut [u8], at: usize)
        requires { at + N * P.BYTES ≤ length row.old }
        ensures { row.new ≡ changed_row P.BYTES (mark_rule self.bits (P.number self.inks.set.flip) (P.number self.inks.set.keep) (P.number self.inks.clear.flip) (P.number self.inks.clear.keep)) N at row.old }
    {
        let ByBits { bits, inks } = self;
        let Inks { set, clear } = inks;
        for k in 0..N {
            let flip = pixel::pick(bits, k, set.flip, clear.flip);
            let keep = pixel::pick(bits, k, set.keep, clear.keep);
            let a = at + k * P::BYTES;
            P::load(row, a).blend(flip, keep).store(row, a);
        }
    }

    // The same to n pixels, one by one. Callers say n as a remainder by eight, so that the compiler knows that they are few and makes no wide
    // loop for them: (b) by `lanes` of a number that is not known text took half as long again (bench/run, text CC at 8 bits).
    fn few(self, row: &mut [u8], at: usize, n: usize)
        requires { at + n * P.BYTES ≤ length row.old }
        ensures { row.new ≡ changed_row P.BYTES (mark_rule self.bits (P.number self.inks.set.flip) (P.number self.inks.set.keep) (P.number self.inks.clear.flip) (P.number self.inks.clear.keep)) n at row.old }
    {
        for k in 0..n {
            self.inks
                .choose(u32::from(self.bits), k)
                .apply(row, at + k * P::BYTES);
        }
    }

    // Applies them to as many pixels of a row as make whole tiles of 32, and says how many.
    fn tiles(self, row: &mut [u8]) -> usize
        ensures eights { result % 8 ≡ 0 }
        ensures inside { result ≤ length row.old / P.BYTES }
        ensures written { row.new ≡ changed_row P.BYTES (mark_rule self.bits (P.number self.inks.set.flip) (P.number self.inks.set.keep) (P.number self.inks.clear.flip) (P.number self.inks.clear.keep)) result 0 row.old }
    {
        let tiles = row.len() / P::BYTES / 32;
        for t in 0..tiles {
            self.lanes::<32>(row, t * 32 * P::BYTES);
        }
        32 * tiles
    }

    // Applies them from pixel k on to as many as make whole eights.
    fn eights(self, row: &mut [u8], k: usize)
        requires eights { k % 8 ≡ 0 }
        requires inside { k ≤ length row.old / P.BYTES }
        ensures { row.new ≡ in_order (changed_at P.BYTES (mark_rule self.bits (P.number self.inks.set.flip) (P.number self.inks.set.keep) (P.number self.inks.clear.flip) (P.number self.inks.clear.keep)) 0) k (whole_eights (length row.old / P.BYTES) - k) row.old }
    {
        for m in 0..(row.len() / P::BYTES - k) / 8 {
            self.lanes::<8>(row, (k + m * 8) * P::BYTES);
        }
    }
}

// All pixels of a row.
#[derive(Clone, Copy)]
struct AllMarks {
    bits: u32,
    inks: Inks<u32>,
}

impl Work for AllMarks {
    ghost can = { λ w depth row. ⊤ };

    ghost gives = { λ w depth row. changed_row depth (mark_rule w.bits w.inks.set.flip w.inks.set.keep w.inks.clear.flip w.inks.clear.keep) (length row / depth) 0 row };

    fn at<P: Pixel>(self, row: &mut [u8]) {
        let marks = ByBits::<P>::of(self.bits, self.inks);
        let n = row.len() / P::BYTES;
        let k = marks.tiles(row);
        marks.eights(row, k);
        let c = n % 8;
        marks.few(row, (n - c) * P::BYTES, c);
    }
}

// Applies to each pixel of a row the blend that its bit says; pixels that lie eight apart have one bit.
pub fn marks(row: &mut [u8], depth: usize, bits: u32, inks: Inks<u32>)
    requires { Depth depth }
    ensures { row.new ≡ changed_row depth (mark_rule bits inks.set.flip inks.set.keep inks.clear.flip inks.clear.keep) (length row.old / depth) 0 row.old }
{
    at_depth(AllMarks { bits, inks }, row, depth);
}

// Eight pixels from a byte on.
#[derive(Clone, Copy)]
struct EightMarks {
    at: usize,
    bits: u32,
    inks: Inks<u32>,
}

impl Work for EightMarks {
    ghost can = { λ w depth row. w.at + 8 * depth ≤ length row };

    ghost gives = { λ w depth. changed_row depth (mark_rule w.bits w.inks.set.flip w.inks.set.keep w.inks.clear.flip w.inks.clear.keep) 8 w.at };

    fn at<P: Pixel>(self, row: &mut [u8]) {
        ByBits::<P>::of(self.bits, self.inks).lanes::<8>(row, self.at);
    }
}

// Applies to eight pixels from a byte on the blends that their bits say.
pub fn eight(row: &mut [u8], depth: usize, at: usize, bits: u32, inks: Inks<u32>)
    requires { (Depth depth) × (at + 8 * depth ≤ length row.old) }
    ensures { row.new ≡ changed_row depth (mark_rule bits inks.set.flip inks.set.keep inks.clear.flip inks.clear.keep) 8 at row.old }
{
    at_depth(EightMarks { at, bits, inks }, row, depth);
}

// A few pixels from a byte on.
#[derive(Clone, Copy)]
struct FewMarks {
    at: usize,
    count: usize,
    bits: u32,
    inks: Inks<u32>,
}

impl Work for FewMarks {
    ghost can = { λ w depth row. w.at + w.count * depth ≤ length row };

    ghost gives = { λ w depth. changed_row depth (mark_rule w.bits w.inks.set.flip w.inks.set.keep w.inks.clear.flip w.inks.clear.keep) w.count w.at };

    fn at<P: Pixel>(self, row: &mut [u8]) {
        ByBits::<P>::of(self.bits, self.inks).few(row, self.at, self.count);
    }
}

// Applies to c pixels from a byte on the blends that their bits say. Callers say c as a remainder by eight, so that the compiler knows
// that they are few and makes no wide loop for them.
pub fn few(row: &mut [u8], depth: usize, at: usize, bits: u32, inks: Inks<u32>, c: usize)
    requires { (Depth depth) × (at + c * depth ≤ length row.old) }
    ensures { row.new ≡ changed_row depth (mark_rule bits inks.set.flip inks.set.keep inks.clear.flip inks.clear.keep) c at row.old }
{
    let few = FewMarks {
        at,
        count: c,
        bits,
        inks,
    };
    at_depth(few, row, depth);
}
