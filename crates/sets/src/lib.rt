// Sets of layers as masks, with digit l - 1 for layer l, and what a tile with such a set costs.
#![tactic(auto)]

ghost use Rattle.std.specs.Prelude.{◌≡◌, suc, ◌-◌, ◌<◌, ◌≤◌, length};
ghost use Rattle.sets.specs.Mask.{with_layer, span_of, top, bottom, Charted, Rowed};

// The set with layer l.
pub fn with_layer(mask: u32, l: usize) -> u32
    requires le_l { (1 ≤ l) × (l ≤ 8) }
    requires mask_bound { mask < 256 }
    ensures value { result ≡ with_layer mask l }
    ensures upper_bound { result < 256 }
{
    mask | (1u32 << ((l - 1) as u32))
}

// The lowest and the highest layer of a set that is not empty, counted from 0.
pub fn lowest(mask: u32) -> u32
    requires { (1 ≤ mask) × (mask < 256) }
    ensures result_value { suc result ≡ bottom mask }
    ensures upper_bound { result < 8 }
{
    u32::trailing_zeros(mask)
}

pub fn highest(mask: u32) -> u32
    requires { (1 ≤ mask) × (mask < 256) }
    ensures result_value { suc result ≡ top mask }
    ensures upper_bound { result < 8 }
{
    31 - u32::leading_zeros(mask)
}

// The chart: the vias of a tile for each of the 256 sets of layers, highest minus lowest layer, in rising order of the sum of 2 to the power l - 1 over the
// layers l of the set. Beside each row stand its sums and, of the layers from 5 on, those in its sets. Along each row, of the layers up to 4, its sets have: none,
// 1, 2, 12, 3, 13, 23, 123, 4, 14, 24, 124, 34, 134, 234, 1234. docs/span-chart.md shows set, mask and span of each entry.
const CHART: [[u8; 16]; 16] = [
    [0, 0, 0, 1, 0, 2, 1, 2, 0, 3, 2, 3, 1, 3, 2, 3], // 0 to 15: none
    [0, 4, 3, 4, 2, 4, 3, 4, 1, 4, 3, 4, 2, 4, 3, 4], // 16 to 31: 5
    [0, 5, 4, 5, 3, 5, 4, 5, 2, 5, 4, 5, 3, 5, 4, 5], // 32 to 47: 6
    [1, 5, 4, 5, 3, 5, 4, 5, 2, 5, 4, 5, 3, 5, 4, 5], // 48 to 63: 5, 6
    [0, 6, 5, 6, 4, 6, 5, 6, 3, 6, 5, 6, 4, 6, 5, 6], // 64 to 79: 7
    [2, 6, 5, 6, 4, 6, 5, 6, 3, 6, 5, 6, 4, 6, 5, 6], // 80 to 95: 5, 7
    [1, 6, 5, 6, 4, 6, 5, 6, 3, 6, 5, 6, 4, 6, 5, 6], // 96 to 111: 6, 7
    [2, 6, 5, 6, 4, 6, 5, 6, 3, 6, 5, 6, 4, 6, 5, 6], // 112 to 127: 5, 6, 7
    [0, 7, 6, 7, 5, 7, 6, 7, 4, 7, 6, 7, 5, 7, 6, 7], // 128 to 143: 8
    [3, 7, 6, 7, 5, 7, 6, 7, 4, 7, 6, 7, 5, 7, 6, 7], // 144 to 159: 5, 8
    [2, 7, 6, 7, 5, 7, 6, 7, 4, 7, 6, 7, 5, 7, 6, 7], // 160 to 175: 6, 8
    [3, 7, 6, 7, 5, 7, 6, 7, 4, 7, 6, 7, 5, 7, 6, 7], // 176 to 191: 5, 6, 8
    [1, 7, 6, 7, 5, 7, 6, 7, 4, 7, 6, 7, 5, 7, 6, 7], // 192 to 207: 7, 8
    [3, 7, 6, 7, 5, 7, 6, 7, 4, 7, 6, 7, 5, 7, 6, 7], // 208 to 223: 5, 7, 8
    [2, 7, 6, 7, 5, 7, 6, 7, 4, 7, 6, 7, 5, 7, 6, 7], // 224 to 239: 6, 7, 8
    [3, 7, 6, 7, 5, 7, 6, 7, 4, 7, 6, 7, 5, 7, 6, 7], // 240 to 255: 5, 6, 7, 8
];

// Writes row r of the chart.
fn fill_row(spans: &mut [u32; 256], row: [u8; 16], r: usize)
    requires { (r < 16) × (length spans.old ≡ 256) }
    ensures { Rowed row r 16 spans.old spans.new }
{
    for (i, &vias) in row.iter().enumerate() {
        spans[16 * r + i] = vias as u32;
    }
}

// The chart by mask: it has the vias of every set of layers.
#[derive(Clone, Copy)]
pub struct Chart {
    pub spans: [u32; 256],
    pub ghost charted: { Charted span_of spans },
}

impl Chart {
    // Filled once in a call, which then lends it to all that ask for the vias of a set.
    pub fn new() -> Chart {
        let rows = CHART;
        let mut spans = [0u32; 256];
        for r in 0..16 {
            fill_row(&mut spans, rows[r], r);
        }
        Chart { spans }
    }

    // The vias of a set.
    pub fn span(&self, mask: u32) -> u32
        requires { mask < 256 }
        ensures value { result ≡ span_of mask }
        ensures upper_bound { result ≤ 7 }
    {
        self.spans[mask as usize]
    }
}
