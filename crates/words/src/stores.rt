// The bytes of a word, the lowest first, stored in a list of bytes.
ghost use Rattle.std.specs.Prelude.{◌+◌, ◌≤◌, ◌<◌, length};
ghost use Rattle.words.specs.Stored.{Stores};

// Stores the N lowest bytes of a word from byte `q` on. The compiler makes one store of them. By hand: `to_le_bytes` makes all eight bytes, and fewer would
// first be copied.
fn put<const N: usize>(out: &mut [u8], q: usize, v: u64)
    requires { (N ≤ 8) × (q + N ≤ length out.old) }
    ensures { Stores q N v out.old out.new }
{
    for k in 0..N {
        out[q + k] = ((v >> (8 * k)) % 256) as u8;
    }
}

// Stores `n` bytes, fewer than eight, by two stores that may overlap: where they do, both store the same.
fn put_few(out: &mut [u8], q: usize, n: usize, v: u64)
    requires { (0 < n) × (n < 8) × (q + n ≤ length out.old) }
    ensures { Stores q n v out.old out.new }
{
    if n >= 4 {
        put::<4>(out, q, v);
        put::<4>(out, q + (n - 4), v >> (8 * (n - 4)));
        return;
    }
    if n >= 2 {
        put::<2>(out, q, v);
        put::<2>(out, q + (n - 2), v >> (8 * (n - 2)));
        return;
    }
    put::<1>(out, q, v);
}

// Stores a word from byte `q` on, as far as there are bytes.
pub fn store(out: &mut [u8], q: usize, v: u64)
    ensures { Stores q 8 v out.old out.new }
{
    if out.len() <= q {
        return;
    }
    let n = out.len() - q;
    if n < 8 {
        put_few(out, q, n, v);
        return;
    }
    put::<8>(out, q, v);
}
