// The loops over the numbers below a count, each once: a test at every number, and a row written by a rule. A loop reads all and leaves
// by no early way: the compiler then takes many numbers at once.
#![tactic(auto)]

pub mod nodes;

ghost use Rattle.std.specs.Prelude.{◌≡◌, ◌+◌, ◌<◌, ◌≤◌, Bool, ℕ, List, length};
ghost use Rattle.words.specs.Vocab.{all, fill};
ghost use Rattle.loops.specs.Tests.{IsTest, IsRule, Callable};

// The test holds at each number below n.
#[tactic(auto, using(words::proofs::Meeting::scans))]
pub fn all_below<F: Fn(usize) -> bool>(n: usize, test: F) -> bool
    requires { Callable (F.pre test) n }
    ensures { (p : ℕ → Bool) → IsTest (F.post test) p n → result ≡ all p n }
{
    let mut ok = true;
    for k in 0..n {
        ok &= test(k);
    }
    ok
}

// Writes what the rule says of k at base + k, for each k below n.
#[tactic(auto, using(words::proofs::Meeting::loops))]
pub fn fill_from<T: Copy, F: Fn(usize) -> T>(row: &mut [T], base: usize, n: usize, rule: F)
    requires fits { base + n ≤ length row.now }
    requires calls { Callable (F.pre rule) n }
    ensures { (p : ℕ → T) → IsRule (F.post rule) p n → row.new ≡ fill p base n row.old }
{
    for k in 0..n {
        row[base + k] = rule(k);
    }
}

// The row whose item k the rule gives.
#[tactic(auto, using(crate::proofs::Filled::same_fill))]
pub fn row<T: Copy + Default, const N: usize, F: Fn(usize) -> T>(rule: F) -> [T; N]
    requires { Callable (F.pre rule) N }
    ensures { (p : ℕ → T) → IsRule (F.post rule) p N → (l : List T) → length l ≡ N → result ≡ fill p 0 N l }
{
    let mut row = [T::default(); N];
    fill_from(&mut row, 0, N, rule);
    row
}
