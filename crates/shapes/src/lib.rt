// The one reader of shapes, which serves patterns and trees.
#![tactic(auto)]

ghost use Rattle.std.specs.Prelude.{◌≡◌, true, false, ◌&&◌, suc, ◌+◌, ◌*◌, ◌<◌, ◌≤◌, length, get_or, take};
ghost use Rattle.bits.specs.Bits.{place_of};
ghost use Rattle.fields.specs.Inside.Promises.{verdict_of};
ghost use Rattle.shapes_rules.specs.Drawing.{code_verdict, node_bits};
ghost use Rattle.shapes.specs.Inside.Promises.{reach, all_marked, mark_verdict, Followed, LeafRoom, Room, FieldRoom, Done, FieldFound, CodeRead, LeafEnd, DrivenEnd, NodeEnd, PairEnd, Counted, ShapeIs, Preorder, SizesSet};

use bits::Cursor;
use fields::{Fault, Flaw, Sheet};
use shapes_rules::{Packed, Rules};

// A shape that was read: how many nodes it has, and whether it is a pattern in which each pin up to the greatest stands at a leaf.
#[derive(Clone, Copy, Debug, PartialEq, Eq)]
pub struct ShapeRead {
    pub size: usize,
    // No verdict: what a pattern that is not whole is refused for, `pattern` of the library sheet says.
    pub whole: bool,
}

// The codes of nodes, but for a NAND's, which is what is left; how wide a code is, and a drive.
// They stay numbers, as the field has them: an enum would be made of one only to be matched at once.
#[derive(Clone, Copy)]
struct Codes {}

impl Codes {
    const LEAF: u64 = 0;

    const INV: u64 = 1;

    const DRIVEN: u64 = 3;

    const WIDTH: usize = 2;

    const DRIVE_WIDTH: usize = 8;
}

// What a shape is read from: the opening of some bytes, and how many they are; and by which rules.
#[derive(Clone, Copy)]
struct Source<'a> {
    opening: &'a [u8; Cursor::OPENING],
    bytes: usize,
    rules: Rules,
}

// How far a shape is read: where the reader stands in the opening, after a fault at the field at fault; how many nodes are read; and of
// each pin of a pattern whether a leaf has it.
#[derive(Clone, Copy)]
struct Progress {
    at: Cursor,
    nodes: usize,
    pins: [bool; Progress::PINS],
}

impl Progress {
    const PINS: usize = 13;

    // The next node: its symbol.
    fn draw(&mut self, symbol: u32, symbols: &mut [u32; Rules::NODES])
        requires { self.old.nodes < 64 }
        ensures { Counted self.old symbol symbols.old self.new symbols.new }
    {
        symbols[self.nodes] = symbol;
        self.nodes += 1;
    }

    // The field of `width` bits where the reader stands, and the cursor after it.
    fn field(&self, source: &Source, width: usize) -> Result<(u64, Cursor), Fault>
        requires { FieldRoom source.now self.now × (width ≤ 24) }
        ensures { Done (λ s rules. FieldFound s self.now.at width result) source.now }
    {
        self.at
            .field_of(source.opening, source.bytes, width)
            .ok_or(Fault::Truncated)
    }

    // The code of the next node.
    fn read_code(&mut self, source: &Source) -> Result<u64, Fault>
        requires { FieldRoom source.now self.old }
        ensures { Done (λ s rules. CodeRead s rules self.old self.new result) source.now }
    {
        let (code, next) = self.field(source, Codes::WIDTH)?;
        code_fault(source.rules, self.nodes, code)?;
        self.at = next;
        Ok(code)
    }

    // What is wrong with a leaf's number, after the leaves whose pins are marked.
    fn leaf_fault(&self, rules: Rules, number: u64) -> Result<(), Fault>
        requires { rules.pattern ≡ true → rules.most ≤ 12 }
        ensures { verdict_of result ≡ mark_verdict rules (get_or self.now.pins number false) number }
    {
        if u64::from(rules.most) < number {
            return Err(Fault::Range);
        }
        if rules.pattern && self.pins[number as usize] {
            return Err(Fault::Drawing);
        }
        Ok(())
    }

    // A leaf after its code.
    fn read_leaf(&mut self, source: &Source, symbols: &mut [u32; Rules::NODES]) -> Result<(), Fault>
        requires { LeafRoom source.now self.old symbols.old }
        ensures { Done (λ s rules. LeafEnd s rules self.old symbols.old self.new symbols.new result) source.now }
    {
        let rules = source.rules;
        let (number, next) = self.field(source, rules.width)?;
        self.leaf_fault(rules, number)?;
        self.draw(Packed::LEAF + number as u32, symbols);
        self.at = next;
        if rules.pattern {
            self.pins[number as usize] = true;
        }
        Ok(())
    }

    // A driven leaf after its code: a leaf's number, and its drive.
    fn read_driven(
        &mut self,
        source: &Source,
        symbols: &mut [u32; Rules::NODES],
    ) -> Result<(), Fault>
        requires { LeafRoom source.now self.old symbols.old × (source.now.rules.pattern ≡ false) }
        ensures { Done (λ s rules. DrivenEnd s rules self.old symbols.old self.new symbols.new result) source.now }
    {
        let n = self.nodes;
        self.read_leaf(source, symbols)?;
        let (drive, next) = self.field(source, Codes::DRIVE_WIDTH)?;
        symbols[n] += Packed::DRIVE * drive as u32;
        self.at = next;
        Ok(())
    }

    // The next node and all below it.
    #[cycle(read_node_read_pair)]
    fn read_node(&mut self, source: &Source, symbols: &mut [u32; Rules::NODES]) -> Result<(), Fault>
        requires { Room source.now self.old symbols.old }
        ensures { Done (λ s rules. NodeEnd s rules self.old symbols.old self.new symbols.new result) source.now }
    {
        match self.read_code(source)? {
            Codes::LEAF => self.read_leaf(source, symbols),
            Codes::DRIVEN => self.read_driven(source, symbols),
            code => {
                // Drawn before it is told which: with an arm for each, the judge of libraries took half as long again.
                self.draw(code as u32 - 1, symbols);
                if code == Codes::INV {
                    self.read_node(source, symbols)
                } else {
                    self.read_pair(source, symbols)
                }
            }
        }
    }

    // A NAND's two branches, from the next node on.
    #[cycle(read_node_read_pair)]
    fn read_pair(&mut self, source: &Source, symbols: &mut [u32; Rules::NODES]) -> Result<(), Fault>
        requires { Room source.now self.old symbols.old }
        ensures { Done (λ s rules. PairEnd s rules self.old symbols.old self.new symbols.new result) source.now }
    {
        self.read_node(source, symbols)?;
        self.read_node(source, symbols)
    }

    // Whether it is a pattern and each pin up to the greatest is marked.
    fn has_pins(&self, rules: Rules) -> bool
        requires { rules.pattern ≡ true → rules.most ≤ 12 }
        ensures { result ≡ (rules.pattern && all_marked (suc rules.most) self.now.pins) }
    {
        rules.pattern
            && self.pins[..rules.most as usize + 1]
                .iter()
                .all(|marked| *marked)
    }
}

// What is wrong with a node's code, after `n` nodes.
#[tactic(auto, unfolding(shapes_rules::specs::Drawing::code_verdict))]
fn code_fault(rules: Rules, n: usize, code: u64) -> Result<(), Fault>
    ensures { verdict_of result ≡ code_verdict rules n code }
{
    if rules.nodes <= n {
        return Err(Fault::Size);
    }
    if rules.pattern && Codes::DRIVEN <= code {
        return Err(Fault::Range);
    }
    if rules.pattern && n == 0 && code == Codes::LEAF {
        return Err(Fault::Drawing);
    }
    Ok(())
}

// A whole shape.
pub fn read_shape(
    sheet: &mut Sheet,
    rules: Rules,
    symbols: &mut [u32; Rules::NODES],
) -> Result<ShapeRead, Flaw>
    requires { Followed rules × (length symbols.old ≡ 64) × (place_of sheet.old.at + node_bits * rules.nodes ≤ reach) }
    ensures { ShapeIs sheet.old sheet.new rules symbols.old symbols.new result }
{
    // By its type a cursor may stand past its byte, and past the sheet.
    let at = sheet.at.on(0);
    let byte = at.byte;
    let s = sheet.bytes;
    if s.len() < byte {
        return Err(Flaw::at(at, Fault::Truncated));
    }
    let opening = bits::opening(s, byte);
    let source = Source {
        opening: &opening,
        bytes: s.len() - byte,
        rules,
    };
    let mut progress = Progress {
        at: Cursor {
            byte: 0,
            used: at.used,
        },
        nodes: 0,
        pins: [false; Progress::PINS],
    };
    let drawn = progress.read_node(&source, symbols);
    let next = Cursor {
        byte: byte + progress.at.byte,
        used: progress.at.used,
    };
    fields::settle(next, drawn)?;
    sheet.at = next;
    Ok(ShapeRead {
        size: progress.nodes,
        whole: progress.has_pins(rules),
    })
}

// How many nodes stand under each of the first `n` nodes, from their symbols: the last node first, since a gate's size is made of those
// of the nodes after it.
pub fn set_sizes(symbols: &[u32], n: usize, sizes: &mut [u8])
    requires { Preorder n symbols.now × (n ≤ 64) × (n ≤ length sizes.old) }
    ensures { SizesSet n symbols.now sizes.old sizes.new }
{
    for k in (0..n).rev() {
        let symbol = symbols[k];
        let mut size = 1;
        if symbol < Packed::LEAF {
            let first = sizes[k + 1];
            size += first;
            if symbol == Packed::NAND {
                size += sizes[k + 1 + first as usize];
            }
        }
        sizes[k] = size;
    }
}
