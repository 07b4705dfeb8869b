// What a sheet is read with: a reader that goes through its fields, and the flaw that stops it.
#![tactic(auto)]

ghost use Rattle.std.specs.Prelude.{◌≡◌, ◌-◌, ◌<◌, ◌≤◌, ◌^◌, MatchResult, true, false};
ghost use Rattle.bits.specs.Bits.{place_of};
ghost use Rattle.fields.specs.declared.Fault.TheVariants.{Tail};
ghost use Rattle.fields.specs.Reading.{free, within, field, filled, ended};
ghost use Rattle.fields.specs.Inside.Promises.{Opens, Reads, UpTo, Closes, Settles, verdict_of};

use bits::Cursor;

// What can be wrong with a sheet: its bytes end in a field ("torn"), go on after the last ("loose tail"), a value is out of range
// ("off the scale"), a pattern is wrongly drawn ("misdrawn"), or there is one node or pattern too many ("overgrown").
#[derive(Clone, Copy, Debug, PartialEq, Eq)]
pub enum Fault {
    Truncated,
    Tail,
    Range,
    Drawing,
    Size,
}

// What is wrong with a sheet, and where: the number of a bit.
#[derive(Clone, Copy, Debug, PartialEq, Eq)]
pub struct Flaw {
    pub fault: Fault,
    pub place: usize,
}

// A sheet that is being read: its bytes, and where the next field starts.
#[derive(Clone, Copy)]
pub struct Sheet<'a> {
    pub bytes: &'a [u8],
    pub at: Cursor,
}

impl<'a> Sheet<'a> {
    // The sheet, at its first bit.
    pub fn open(bytes: &'a [u8]) -> Self
        ensures { Opens bytes.now result }
    {
        Sheet {
            bytes,
            at: Cursor::new(),
        }
    }

    // A field of up to 24 bits, of any value.
    pub fn raw(&mut self, width: usize) -> Result<u32, Flaw>
        requires { (place_of self.old.at < 2 ^ 32) × (width ≤ 24) }
        ensures { Reads self.old self.new (λ s. field s width free) (UpTo (2 ^ width - 1)) width result }
    {
        let Some((value, next)) = self.at.field(self.bytes, width) else {
            return Err(Flaw::at(self.at, Fault::Truncated));
        };
        self.at = next;
        Ok(value as u32)
    }

    // The same of a field of up to 64 bits. A field of up to 24 is not read through it: that made the judges of sheets slower.
    pub fn raw_wide(&mut self, width: usize) -> Result<u64, Flaw>
        requires { (place_of self.old.at < 2 ^ 32) × (width ≤ 64) }
        ensures { Reads self.old self.new (λ s. field s width free) (UpTo (2 ^ width - 1)) width result }
    {
        let Some((value, next)) = self.at.field(self.bytes, width) else {
            return Err(Flaw::at(self.at, Fault::Truncated));
        };
        self.at = next;
        Ok(value)
    }

    // A field with a range.
    pub fn ranged(&mut self, width: usize, least: u32, most: u32) -> Result<u32, Flaw>
        requires { (place_of self.old.at < 2 ^ 32) × (width ≤ 24) }
        ensures { Reads self.old self.new (λ s. field s width (within least most)) (UpTo most) width result }
    {
        let before = self.at;
        let value = self.raw(width)?;
        settle(before, in_range(least, most, value))?;
        Ok(value)
    }

    // The rest of the byte after a sheet's last field: zero bits.
    // `fill` and `end` differ in the test of the cursor alone, which `tail` turns into a result.
    pub fn fill(&self) -> Result<(), Flaw>
        requires { place_of self.now.at < 2 ^ 32 }
        ensures { Closes (filled self.now.bytes.now) self.now.at result }
    {
        tail(self.at, self.at.fills(self.bytes))
    }

    // The end of a sheet: zero bits to the byte, and no byte more.
    pub fn end(&self) -> Result<(), Flaw>
        requires { place_of self.now.at < 2 ^ 32 }
        ensures { Closes (ended self.now.bytes.now) self.now.at result }
    {
        tail(self.at, self.at.ends(self.bytes))
    }
}

impl Flaw {
    // What is wrong at a cursor.
    pub fn at(at: Cursor, fault: Fault) -> Self
        requires { place_of at < 2 ^ 32 }
        ensures { result ≡ record { fault = fault; place = place_of at } }
    {
        Flaw {
            fault,
            place: at.place(),
        }
    }
}

// Whether a value lies between two bounds.
pub fn in_range(least: u32, most: u32, value: u32) -> Result<(), Fault>
    ensures { verdict_of result ≡ within least most value }
{
    if value < least || most < value {
        return Err(Fault::Range);
    }
    Ok(())
}

// A verdict on the value of a field that was read at `before`.
pub fn settle(before: Cursor, verdict: Result<(), Fault>) -> Result<(), Flaw>
    requires { place_of before < 2 ^ 32 }
    ensures { Settles before (verdict_of verdict) result }
{
    match verdict {
        Ok(()) => Ok(()),
        Err(fault) => Err(Flaw::at(before, fault)),
    }
}

// What follows a sheet's last field, at a cursor, if it is as wanted.
fn tail(at: Cursor, wanted: bool) -> Result<(), Flaw>
    requires { place_of at < 2 ^ 32 }
    ensures { MatchResult result (λ _. wanted ≡ true) (λ e. (wanted ≡ false) × (e ≡ record { fault = Tail; place = place_of at })) }
{
    if wanted {
        return Ok(());
    }
    Err(Flaw::at(at, Fault::Tail))
}
