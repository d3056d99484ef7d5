// The parts of slices, and the pattern that shows what a call left alone.
ghost use Rattle.std.specs.Prelude.{◌≤◌, ◌≡◌, drop, length, take};

// What stands behind the first n, or nothing.
pub fn after<T>(xs: &[T], n: usize) -> &[T]
    ensures { result.now ≡ drop n xs.now }
{
    &xs[n.min(xs.len())..]
}

// The first n of a slice, or all of it.
pub fn front<T>(xs: &[T], n: usize) -> &[T]
    ensures { result.now ≡ take n xs.now }
{
    &xs[..n.min(xs.len())]
}

// The last n of a slice, or all of it.
pub fn back<T>(xs: &[T], n: usize) -> &[T] {
    &xs[xs.len().saturating_sub(n)..]
}

// What each item becomes, to the front of a slice, as far as both reach.
pub fn mapped<A: Copy, B: Copy, F: Fn(A) -> B>(items: &[A], room: &mut [B], becomes: F)
    requires { F.IsAlwaysCallable becomes }
{
    for (to, item) in room.iter_mut().zip(items) {
        *to = becomes(*item);
    }
}

// The pattern: in each place a number that no table holds, and not that of the places beside it.
fn mark(i: usize) -> i32 {
    (1_000_000_000 + i % 1000) as i32
}

// Fills a slice with the pattern.
fn fill(out: &mut [i32]) {
    for (i, x) in out.iter_mut().enumerate() {
        *x = mark(i);
    }
}

// Whether a slice holds the pattern from a place on.
pub fn is_filled(out: &[i32], from: usize) -> bool {
    (from..out.len()).all(|i| out[i] == mark(i))
}

// Fills a slice with the pattern, and lends the first n of it, or all.
pub fn lent(out: &mut [i32], n: usize) -> &mut [i32]
    ensures { length result.now ≤ length out.old }
{
    fill(out);
    let n = room(out, n);
    &mut out[..n]
}

// n, or the length of a slice if that is less. The contract is what `&mut xs[..n]` asks.
pub fn room<T>(xs: &[T], n: usize) -> usize
    ensures { (result ≤ length xs.now) × (result ≡ length (take result xs.now)) }
{
    n.min(xs.len())
}
