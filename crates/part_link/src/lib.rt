// A tree of a part with the arrivals that its links bring.
#![tactic(auto)]

ghost use Rattle.std.specs.Prelude.{◌≡◌, ◌≤◌, length};
ghost use Rattle.leaves.specs.Inside.Leaf.{symbol_limit};
ghost use Rattle.part_link.specs.Inside.Promises.{brought, Linkable, LinksTree, symbol_linked};

use shapes_rules::Packed;
use sheets_rules::{Limits, TreeRecord};

// A node's symbol with the arrival that its driver brings, if it is a leaf and has one; or none, if that arrival is too late.
fn link_symbol(symbol: u32, driver: u8, arrivals: &[u32]) -> Option<u32>
    requires { (symbol ≤ symbol_limit) × (driver ≤ length arrivals.now) }
    ensures { result ≡ symbol_linked (brought arrivals.now driver) symbol }
{
    if driver == 0 {
        return Some(symbol);
    }
    if symbol < Packed::LEAF {
        return Some(symbol);
    }
    let arrival = arrivals[driver as usize - 1];
    if Limits::ARRIVAL < arrival {
        return None;
    }
    Some(leaves::with_arrival(symbol, arrival))
}

// A tree with the arrivals that the drivers of its nodes bring; or the lowest leaf at which one is too late.
// By value: another tree is made of it.
pub fn link_tree(tree: TreeRecord, drivers: &[u8], arrivals: &[u32]) -> Result<TreeRecord, usize>
    requires { Linkable tree drivers.now arrivals.now }
    ensures { LinksTree tree drivers.now arrivals.now result }
{
    let mut symbols = tree.symbols;
    for n in 0..tree.count {
        let Some(symbol) = link_symbol(symbols[n], drivers[n], arrivals) else {
            return Err(n);
        };
        symbols[n] = symbol;
    }
    Ok(TreeRecord { symbols, ..tree })
}
