//! The words of a strip as rows of bits, and back. The last word of the strip stands first.
ghost use Rattle.std.specs.Prelude.{◌≡◌, ◌<◌, true, length};
ghost use Rattle.engines.specs.Rows.{Width, Gathered, Loaded, Spread, Unloaded, Blank};

// The lowest W bits of every W-th word, in one row. By number: `rev`, `skip` and two `step_by`s, of the words and of
// their places in the row, are no plainer.
fn gather<const W: usize>(strip: &[u32; 64], row: usize) -> u64
    requires width { Width W }
    requires row { row < W }
    ensures { Gathered W strip.now row result }
{
    let mut bits = 0;
    for part in 0..64 / W {
        bits |= (u64::from(strip[63 - (W * part + row)]) % (1 << W)) << (W * part);
    }
    bits
}

// The lowest W bits of the words, in W rows.
pub(crate) fn load<const W: usize>(strip: &[u32; 64]) -> [u64; W]
    requires { Width W }
    ensures { Loaded W strip.now W result }
{
    let mut rows = [0; W];
    for (row, bits) in rows.iter_mut().enumerate() {
        *bits = gather::<W>(strip, row);
    }
    rows
}

// The words of one row. By number: a proof knows no word that `iter_mut` lends under a `step_by`.
fn spread<const W: usize>(strip: &mut [u32; 64], row: usize, bits: u64)
    requires width { Width W }
    requires row { row < W }
    ensures { Spread W row bits strip.old strip.new }
{
    for part in 0..64 / W {
        strip[63 - (W * part + row)] = ((bits >> (W * part)) % (1 << W)) as u32;
    }
}

// The words of W rows.
pub(crate) fn unload<const W: usize>(rows: &[u64; W], strip: &mut [u32; 64])
    requires { Width W }
    ensures { Unloaded W rows.now strip.new }
{
    for (row, bits) in rows.iter().enumerate() {
        spread::<W>(strip, row, *bits);
    }
}

// Whether no row has a bit.
pub(crate) fn is_blank(rows: &[u64]) -> bool
    ensures { result ≡ true → Blank rows.now (length rows.now) }
{
    rows.iter().all(|row| *row == 0)
}
