// A text that grows in a lent slice: words, numbers and the ends of lines are put at its end.
#![tactic(auto)]

ghost use Rattle.std.specs.Prelude.{◌≡◌, [], ◌∷◌};
ghost use Rattle.text.specs.Text.{decimal, signed, space, spaced};
ghost use Rattle.text.specs.Inside.Promises.{Appended, HasRoom};

// How many digits a number of 64 bits has at the most.
#[derive(Clone, Copy)]
struct Decimal {}

impl Decimal {
    const DIGITS: usize = 20;
}

// The first `len` bytes of a lent slice.
#[derive(Drop)]
pub struct Text<'a> {
    pub bytes: &'a mut [u8],
    pub len: usize,
}

impl<'a> Text<'a> {
    // No text yet.
    pub fn new(bytes: &'a mut [u8]) -> Text<'a>
        ensures same_slice { result.bytes.ghost_name ≡ bytes.entry.ghost_name }
        ensures same_bytes { result.bytes.now ≡ bytes.old }
        ensures none { result.len ≡ 0 }
    {
        Text { bytes, len: 0 }
    }

    // Puts a word.
    pub fn put_word(&mut self, word: &[u8])
        requires { HasRoom word.now self.old }
        ensures { Appended word.now self.old self.new }
    {
        let end = self.len + word.len();
        self.bytes[self.len..end].copy_from_slice(word);
        self.len = end;
    }

    // Puts a number's decimal digits. No `write!`: its contract says nothing of when it succeeds.
    pub fn put_number(&mut self, n: u64)
        requires { HasRoom (decimal n) self.old }
        ensures { Appended (decimal n) self.old self.new }
    {
        let mut digits = [0u8; Decimal::DIGITS];
        let count = io::decimal(n, &mut digits);
        self.put_word(&digits[..count]);
    }

    // Puts an integer, with a minus sign if it is negative.
    pub fn put_signed(&mut self, n: i32)
        requires { HasRoom (signed n) self.old }
        ensures { Appended (signed n) self.old self.new }
    {
        if n < 0 {
            self.put_word(b"-");
        }
        self.put_number(u64::from(n.unsigned_abs()));
    }

    // Puts a space and a number.
    pub fn put_spaced(&mut self, n: u64)
        requires { HasRoom (space ∷ decimal n) self.old }
        ensures { Appended (space ∷ decimal n) self.old self.new }
    {
        self.put_word(b" ");
        self.put_number(n);
    }

    // Puts the last two numbers of a line and its newline.
    pub fn put_last(&mut self, m: u64, n: u64)
        requires { HasRoom (spaced (decimal m ∷ decimal n ∷ [])) self.old }
        ensures { Appended (spaced (decimal m ∷ decimal n ∷ [])) self.old self.new }
    {
        self.put_spaced(m);
        self.put_spaced(n);
        self.put_word(b"\n");
    }
}
