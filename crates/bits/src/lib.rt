// Bit fields, most significant bit first, read from bytes and written into them.
// No place is divided in reading: a cursor has the number of its byte and how many of its bits are before the place, and goes on by adding and comparing.
#![tactic(auto)]

ghost use Rattle.std.specs.Prelude.{◌≡◌, ◌+◌, ◌-◌, ◌*◌, ◌/◌, ◌%◌, ◌<◌, ◌≤◌, ◌^◌, length, drop, leb};
ghost use Rattle.bits.specs.Bits.{place_of, cursor_at, value_at, field_at, bytes_to, filled_at, ends_at, with_bit, with_field};
ghost use Rattle.bits.specs.Inside.Promises.{Opens, Opened, FieldOf, Weight};

// A place in bytes: the number of a byte, and how many of its bits are before the place.
#[derive(Clone, Copy, Debug, PartialEq, Eq)]
pub struct Cursor {
    pub byte: usize,
    pub used: usize,
}

impl Cursor {
    // How many bytes an opening has.
    pub const OPENING: usize = 256;

    const BYTE_BITS: usize = 8;

    // How many numbers a byte can hold.
    const BYTE_VALUES: u64 = 256;

    // How many bytes the word has from which a field is cut where it can be.
    const WORD_BYTES: usize = 4;

    const WORD_BITS: usize = Cursor::WORD_BYTES * Cursor::BYTE_BITS;

    // The first bit.
    pub fn new() -> Self
        ensures { result ≡ cursor_at 0 }
    {
        Cursor { byte: 0, used: 0 }
    }

    // The number of the bit at which the cursor stands.
    // The bounds are asked for and stand in no type, here and in readers: a cursor goes on past any bound.
    pub fn place(self) -> usize
        requires { place_of self < 2 ^ 32 }
        ensures { result ≡ place_of self }
    {
        Cursor::BYTE_BITS * self.byte + self.used
    }

    // The cursor `width` bits on: 8 bits carry to the next byte. It counts on and does not divide: no place is divided or shifted in reading a sheet.
    pub fn on(self, width: usize) -> Self
        requires { (place_of self < 2 ^ 32) × (width ≤ 64) }
        ensures { result ≡ cursor_at (place_of self + width) }
    {
        let mut byte = self.byte;
        let mut used = self.used + width;
        while Cursor::BYTE_BITS <= used {
            used -= Cursor::BYTE_BITS;
            byte += 1;
        }
        Cursor { byte, used }
    }

    // Whether `bytes` bytes go as far as the cursor.
    // No comparison of two cursors: the end is a count of bytes.
    fn inside(self, bytes: usize) -> bool
        requires { self.used < 8 }
        ensures { result ≡ leb (place_of self) (8 * bytes) }
    {
        // Branches, the usual one first: as one condition, and by `cmp`, reading a tree took half as long again.
        let byte = self.byte;
        if byte < bytes {
            return true;
        }
        if bytes < byte {
            return false;
        }
        self.used == 0
    }

    // The field of `width` bits at the cursor. Where a word is there and has the field, it is cut from it; else, near the end and for wide fields, it is read byte by byte.
    // None: the bytes end before or inside it.
    // Put in place at each call: from memory both words of the cursor were loaded at once, before they stood there, and a sheet was read more slowly.
    #[inline(always)]
    pub fn field(self, s: &[u8], width: usize) -> Option<(u64, Cursor)>
        requires { (place_of self < 2 ^ 32) × (width ≤ 64) }
        ensures { result ≡ field_at s.now (place_of self) width }
    {
        let Cursor { byte, used } = self;
        let next = self.on(width);
        if used + width <= Cursor::WORD_BITS && byte + Cursor::WORD_BYTES <= s.len() {
            return Some((cut(word(s, byte), Cursor::WORD_BITS, used, width), next));
        }
        if next.inside(s.len()) {
            return Some((spread(s, byte, used, width), next));
        }
        None
    }

    // The field of `width` bits at the cursor, in `bytes` bytes that open so.
    pub fn field_of(
        self,
        opening: &[u8; Cursor::OPENING],
        bytes: usize,
        width: usize,
    ) -> Option<(u64, Cursor)>
        requires { Opened opening.now bytes × (self.used < 8) × (self.byte ≤ 252) × (width ≤ 24) }
        ensures { FieldOf opening.now bytes (place_of self) width result }
    {
        let Cursor { byte, used } = self;
        let next = self.on(width);
        if next.inside(bytes) {
            return Some((
                cut(word(opening, byte), Cursor::WORD_BITS, used, width),
                next,
            ));
        }
        None
    }

    // How many bytes the bits before the cursor take up.
    pub fn bytes_to(self) -> usize
        requires { place_of self < 2 ^ 32 }
        ensures { result ≡ bytes_to (place_of self) }
    {
        // A cursor may have a byte that is used up.
        let Cursor { byte, used } = self.on(0);
        if used == 0 {
            return byte;
        }
        byte + 1
    }

    // Whether the bytes that the bits before the cursor take up are there, and the rest of the last is zero bits.
    pub fn fills(self, s: &[u8]) -> bool
        requires { place_of self < 2 ^ 32 }
        ensures { result ≡ filled_at s.now (place_of self) }
    {
        let Cursor { byte, used } = self.on(0);
        if used == 0 {
            return byte <= s.len();
        }
        let left = Cursor::BYTE_BITS - used;
        byte < s.len() && cut(u64::from(s[byte]), Cursor::BYTE_BITS, used, left) == 0
    }

    // Whether the bytes end at the cursor: zero bits to the byte, and no byte more.
    pub fn ends(self, s: &[u8]) -> bool
        requires { place_of self < 2 ^ 32 }
        ensures { result ≡ ends_at s.now (place_of self) }
    {
        s.len() == self.bytes_to() && self.fills(s)
    }
}

// The bytes from number `at` on, as many as an opening has: zero bytes after the last.
pub fn opening(s: &[u8], at: usize) -> [u8; Cursor::OPENING]
    requires { at ≤ length s.now }
    ensures { Opens result (drop at s.now) (length s.now - at) }
{
    let mut bytes = [0u8; Cursor::OPENING];
    let count = (s.len() - at).min(Cursor::OPENING);
    for k in 0..count {
        bytes[k] = s[at + k];
    }
    bytes
}

// The number in four bytes.
fn word(s: &[u8], at: usize) -> u64
    requires { at + 4 ≤ length s.now }
    ensures { (result ≡ value_at s.now (8 * at) 32) × (result < 2 ^ 32) }
{
    let high = Cursor::BYTE_VALUES * u64::from(s[at]) + u64::from(s[at + 1]);
    let low = Cursor::BYTE_VALUES * u64::from(s[at + 2]) + u64::from(s[at + 3]);
    Cursor::BYTE_VALUES * Cursor::BYTE_VALUES * high + low
}

// What a bit is worth after which `k` bits stand.
// In 64 bits; `settings` of functions has the same in usize: each with the bound that it needs.
fn power(k: usize) -> u64
    requires { k < 64 }
    ensures { (result ≡ 2 ^ k) × (0 < result) }
{
    1u64 << k
}

// Of a number of `bits` bits the `width` bits after the first `used`.
fn cut(number: u64, bits: usize, used: usize, width: usize) -> u64
    requires { (used + width ≤ bits) × (bits < 64) }
    ensures { result ≡ number / 2 ^ (bits - (used + width)) % 2 ^ width }
{
    number / power(bits - (used + width)) % power(width)
}

// The number in the `width` bits after the first `used` from byte `byte` on, byte by byte. The sum of the three stays far from what a word can hold.
// It stays a call, so that `field` is short enough to be put in place.
#[inline(never)]
fn spread(s: &[u8], byte: usize, used: usize, width: usize) -> u64
    requires { (8 * byte + used + width ≤ 8 * length s.now) × (byte + used + width < 2 ^ 33) × (width ≤ 64) }
    ensures { (result ≡ value_at s.now (8 * byte + used) width) × (result < 2 ^ width) }
{
    if width == 0 {
        return 0;
    }
    if Cursor::BYTE_BITS <= used {
        return spread(s, byte + 1, used - Cursor::BYTE_BITS, width);
    }
    let here = u64::from(s[byte]);
    let left = Cursor::BYTE_BITS - used;
    if width <= left {
        return cut(here, Cursor::BYTE_BITS, used, width);
    }
    let rest = width - left;
    let high = cut(here, Cursor::BYTE_BITS, used, left);
    high * power(rest) + spread(s, byte + 1, 0, rest)
}

// What the bit at place `i` is worth in its byte.
fn weight(i: usize) -> u32
    ensures { Weight i result }
{
    1u32 << (7 - i % 8)
}

// Makes the bit at place `i` the bit `b`.
fn put_bit(s: &mut [u8], i: usize, b: u32)
    requires { (i < 8 * length s.old) × (b < 2) }
    ensures { s.new ≡ with_bit s.old i b }
{
    let half = weight(i);
    let full = 2 * half;
    let byte = u32::from(s[i / 8]);
    s[i / 8] = ((byte / full * full + (b * half + byte % half)) % 256) as u8;
}

// Makes the `width` bits from place `at` on the number `v`. All other bits are kept.
pub fn put(s: &mut [u8], at: usize, width: usize, v: u32)
    requires { (at + width ≤ 8 * length s.old) × (at < 2 ^ 32) × (width ≤ 24) }
    ensures { s.new ≡ with_field s.old at width v }
{
    let mut rest = v;
    for k in (0..width).rev() {
        put_bit(s, at + k, rest % 2);
        rest /= 2;
    }
}
