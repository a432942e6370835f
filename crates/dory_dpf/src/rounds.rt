//! The double round of ChaCha20 on one block's state.
ghost use Rattle.std.specs.Prelude.{◌≡◌};
ghost use Rattle.rand_chacha.specs.Block.{column_round, diagonal_round, quarter_round};

#[inline(always)]
fn quarter_round(a: u32, b: u32, c: u32, d: u32) -> (u32, u32, u32, u32)
    ensures { result ≡ quarter_round a b c d }
{
    let a1 = a.wrapping_add(b);
    let d1 = (d ^ a1).rotate_left(16);
    let c1 = c.wrapping_add(d1);
    let b1 = (b ^ c1).rotate_left(12);
    let a2 = a1.wrapping_add(b1);
    let d2 = (d1 ^ a2).rotate_left(8);
    let c2 = c1.wrapping_add(d2);
    let b2 = (b1 ^ c2).rotate_left(7);
    (a2, b2, c2, d2)
}

/// The quarter round on each column of the state, read as four rows of four words.
#[inline(always)]
pub fn column_round(x: &[u32; 16]) -> [u32; 16]
    ensures { result ≡ column_round x.now }
{
    let (x0, x4, x8, x12) = quarter_round(x[0], x[4], x[8], x[12]);
    let (x1, x5, x9, x13) = quarter_round(x[1], x[5], x[9], x[13]);
    let (x2, x6, x10, x14) = quarter_round(x[2], x[6], x[10], x[14]);
    let (x3, x7, x11, x15) = quarter_round(x[3], x[7], x[11], x[15]);
    [
        x0, x1, x2, x3, x4, x5, x6, x7, x8, x9, x10, x11, x12, x13, x14, x15,
    ]
}

/// The quarter round on each diagonal.
#[inline(always)]
pub fn diagonal_round(x: &[u32; 16]) -> [u32; 16]
    ensures { result ≡ diagonal_round x.now }
{
    let (x0, x5, x10, x15) = quarter_round(x[0], x[5], x[10], x[15]);
    let (x1, x6, x11, x12) = quarter_round(x[1], x[6], x[11], x[12]);
    let (x2, x7, x8, x13) = quarter_round(x[2], x[7], x[8], x[13]);
    let (x3, x4, x9, x14) = quarter_round(x[3], x[4], x[9], x[14]);
    [
        x0, x1, x2, x3, x4, x5, x6, x7, x8, x9, x10, x11, x12, x13, x14, x15,
    ]
}
