// The value of one pixel in a number of its own width, at each number of bytes that a format can give.
#![tactic(auto)]

ghost use Rattle.std.specs.Prelude.{◌≡◌, ◌+◌, ◌*◌, ◌%◌, ◌^◌, ◌≤◌, ℕ, length};
ghost use Rattle.model.specs.Formats.{Depth};
ghost use Rattle.model.specs.Formats.Depth.{one, two, four};
ghost use Rattle.model.specs.Pixel.{read_pixel, store_pixel};
ghost use Rattle.laws.specs.Whole.{blended};

// A pixel's value: `number` is what it says, BYTES how many bytes of frame memory it takes.
pub trait Pixel: Copy {
    const BYTES: usize;

    ghost BYTES: { ℕ };

    ghost number: { Self → ℕ };

    // The pixel at a byte of frame memory.
    fn load(f: &[u8], at: usize) -> Self
        requires { at + BYTES ≤ length f.now }
        ensures { number result ≡ read_pixel BYTES f.now at };

    // Writes it at a byte of frame memory.
    fn store(self, f: &mut [u8], at: usize)
        requires { at + BYTES ≤ length f.old }
        ensures { f.new ≡ store_pixel BYTES f.old at (number self) };

    // The low bytes of a value.
    fn low(value: u32) -> Self
        ensures { number result ≡ value % 2 ^ (8 * BYTES) };

    // The same value in four bytes.
    fn wide(self) -> u32
        ensures { result ≡ number self };

    // Its bits where `keep` has 1, xor `flip`.
    fn blend(self, flip: Self, keep: Self) -> Self
        ensures { number result ≡ blended (number flip) (number keep) (number self) };

    // A format can give so many bytes.
    ghost deep: { Depth BYTES };
}

impl Pixel for u8 {
    const BYTES: usize = 1;

    ghost BYTES = { 1 };

    ghost number = { λ x. x };

    ghost deep = { one };

    fn load(f: &[u8], at: usize) -> u8 {
        f[at]
    }

    fn store(self, f: &mut [u8], at: usize) {
        f[at] = self;
    }

    fn low(value: u32) -> u8 {
        (value % 256) as u8
    }

    fn wide(self) -> u32 {
        self as u32
    }

    fn blend(self, flip: u8, keep: u8) -> u8 {
        flip ^ (self & keep)
    }
}

impl Pixel for u16 {
    const BYTES: usize = 2;

    ghost BYTES = { 2 };

    ghost number = { λ x. x };

    ghost deep = { two };

    fn load(f: &[u8], at: usize) -> u16 {
        let b = at + 1;
        f[at] as u16 + 256 * (f[b] as u16)
    }

    fn store(self, f: &mut [u8], at: usize) {
        let b = at + 1;
        f[at] = (self % 256) as u8;
        f[b] = (self / 256) as u8;
    }

    fn low(value: u32) -> u16 {
        (value % 65536) as u16
    }

    fn wide(self) -> u32 {
        self as u32
    }

    fn blend(self, flip: u16, keep: u16) -> u16 {
        flip ^ (self & keep)
    }
}

impl Pixel for u32 {
    const BYTES: usize = 4;

    ghost BYTES = { 4 };

    ghost number = { λ x. x };

    ghost deep = { four };

    fn load(f: &[u8], at: usize) -> u32 {
        let b = at + 1;
        let c = at + 2;
        let d = at + 3;
        16777216 * (f[d] as u32) + 65536 * (f[c] as u32) + 256 * (f[b] as u32) + f[at] as u32
    }

    fn store(self, f: &mut [u8], at: usize) {
        let b = at + 1;
        let c = at + 2;
        let d = at + 3;
        f[at] = (self % 256) as u8;
        f[b] = (self / 256 % 256) as u8;
        f[c] = (self / 65536 % 256) as u8;
        f[d] = (self / 16777216) as u8;
    }

    fn low(value: u32) -> u32 {
        value
    }

    fn wide(self) -> u32 {
        self
    }

    fn blend(self, flip: u32, keep: u32) -> u32 {
        flip ^ (self & keep)
    }
}
