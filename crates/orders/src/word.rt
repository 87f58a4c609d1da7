// Numbers of 64 bits in four cells of 16 bits, low cell first. The array of the points and the table of the values hold such numbers. A
// function that another crate can call asks nothing, so these take and give the cells, and whoever has the array says where they stand.
ghost use Rattle.std.specs.Prelude.{◌≡◌};
ghost use Rattle.orders.specs.Words.{value_at, cells_of};

// The number in four cells.
#[tactic(auto, unfolding(crate::specs::Words::value_at))]
pub fn joined(cells: [u16; 4]) -> u64
    ensures { result ≡ value_at cells 0 }
{
    let [a, b, c, d] = cells;
    u64::from(a) + u64::from(b) * 65536 + u64::from(c) * 4294967296 + u64::from(d) * 281474976710656
}

// The four cells of a number.
pub fn split(value: u64) -> [u16; 4]
    ensures { result ≡ cells_of value }
{
    [
        (value % 65536) as u16,
        (value / 65536 % 65536) as u16,
        (value / 4294967296 % 65536) as u16,
        (value / 281474976710656) as u16,
    ]
}
