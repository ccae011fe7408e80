// Arrays that are filled from the front, as the columns of a table are.

ghost use Rattle.std.specs.Prelude.{◌≡◌, ℕ, ◌<◌};
ghost use Rattle.tables.specs.Read.{filled};

// What f says of each number below n, as many as fit, and the filler behind. No `array::from_fn`: of an array of any size that asks for
// a bound on the size in bytes, which no caller here needs.
pub fn filled<T: Copy, const N: usize, F: Fn(usize) -> T>(n: usize, filler: T, f: F) -> [T; N]
    requires { (k : ℕ) → k < n → k < N → F.pre f k }
    ensures { (says : ℕ → T) → ((k : ℕ) (x : T) → k < n → F.post f k x → x ≡ says k) → result ≡ filled N filler n says }
{
    let mut xs = [filler; N];
    for k in 0..n.min(N) {
        xs[k] = f(k);
    }
    xs
}
