// Pairs of lots by number, for the rows of a repair table and the words of a block file.
#![tactic(auto)]

ghost use Rattle.std.specs.Prelude.{◌≡◌, ◌≤◌, ◌<◌};
ghost use Rattle.pairs.specs.Pairs.{pair_at, low, high, pair_number};

use week::Lot;

// Two different lots, the lower one first.
#[derive(Clone, Copy, Debug, PartialEq, Eq)]
pub struct Pair {
    pub low: Lot,
    pub high: Lot,
}

// Pair r of n lots, in the order (0,1), (0,2) and so on; lot 0 twice where there is none. Inner layers share it: they know that there
// are at most 24 lots.
pub fn pair_at(n: u32, r: usize) -> Pair
    requires { n ≤ 24 }
    ensures { (result.low.0 ≡ low (pair_at n r)) × (result.high.0 ≡ high (pair_at n r)) }
{
    let lots = n as usize;
    let mut left = r;
    for p in 0..lots {
        let after = lots - p - 1;
        if left < after {
            return Pair {
                low: Lot(p as u8),
                high: Lot((p + 1 + left) as u8),
            };
        }
        left -= after;
    }
    Pair {
        low: Lot(0),
        high: Lot(0),
    }
}

// The number of the pair p < q of n lots. Inner layers share it: they know that it is one.
pub fn pair_number(n: u32, p: Lot, q: Lot) -> usize
    requires { (p.0 < q.0) × ((q.0 < n) × (n ≤ 24)) }
    ensures { result ≡ pair_number n p.0 q.0 }
{
    let lots = n as usize;
    let low = usize::from(p.0);
    let high = usize::from(q.0);
    low * (lots + lots - low - 1) / 2 + (high - low - 1)
}
