// Functions on words that the caller lends.
#![tactic(auto)]

ghost use Rattle.std.specs.Prelude.{◌≡◌, true, Bool, ℕ, ◌<◌, ◌+◌, ◌-◌, ◌≤◌, length};
ghost use Rattle.words.specs.Lists.{part, splice, Apart, word_at, every, every_pair, zip2, noughts, within, zeros, covered, roomy, equal, first_short, total as total_of, most_word};

// Word by word: dst becomes src, dst and src together, dst less src, 0.

// Each word of dst becomes what f gives of it and src's. Stored by its place: of a walk by `iter_mut().zip` an invariant
// would have to say what the iterator has left, and that is no plainer.
fn each_word<F: Fn(u32, u32) -> u32>(dst: &mut [u32], src: &[u32], f: F)
    requires src_len { length src.now ≡ length dst.old }
    requires callable { (i : ℕ) → i < length dst.old → F.pre f (word_at dst.old i) (word_at src.now i) }
    ensures len { length dst.new ≡ length dst.old }
    ensures each { (i : ℕ) → i < length dst.old → F.post f (word_at dst.old i) (word_at src.now i) (word_at dst.new i) }
{
    for (i, y) in src.iter().enumerate() {
        dst[i] = f(dst[i], *y);
    }
}

// No `copy_from_slice`: it would have whoever links the library bring a `memmove`.
pub fn copy(dst: &mut [u32], src: &[u32])
    requires { length src.now ≡ length dst.old }
    ensures { dst.new ≡ src.now }
{
    each_word(dst, src, |_, y| y);
}

pub fn add(dst: &mut [u32], src: &[u32])
    requires src_len { length src.now ≡ length dst.old }
    requires dst_value { roomy most_word src.now dst.old ≡ true }
    ensures { dst.new ≡ zip2 ◌+◌ dst.old src.now }
{
    each_word(dst, src, |x, y| x + y);
}

pub fn subtract(dst: &mut [u32], src: &[u32])
    requires src_len { length src.now ≡ length dst.old }
    requires dst_value { covered src.now dst.old ≡ true }
    ensures { dst.new ≡ zip2 ◌-◌ dst.old src.now }
{
    each_word(dst, src, |x, y| x - y);
}

#[tactic(auto, using(crate::proofs::Laws::noughts_replicate))]
pub fn clear(dst: &mut [u32])
    ensures { dst.new ≡ noughts (length dst.old) }
{
    dst.fill(0);
}

// The sum of the words, which a u64 holds.
#[tactic(auto, using(crate::proofs::Laws::total_is))]
pub fn total(a: &[u32]) -> u64
    requires { length a.now ≤ 65536 }
    ensures { result ≡ total_of a.now }
{
    a.iter().map(|x| u64::from(*x)).sum()
}

// Tests of every word. None leaves early, so that several words are tested at a time: `all` takes 7 times as long.

fn every_word<F: Fn(u32) -> bool>(a: &[u32], test: F) -> bool
    requires { F.IsAlwaysCallable test }
    ensures { (p : ℕ → Bool) → ((x : ℕ) (r : Bool) → F.post test x r → r ≡ p x) → result ≡ every p a.now }
{
    a.iter().fold(true, |ok, x| ok & test(*x))
}

#[tactic(auto, unfolding(crate::specs::Lists::within))]
pub fn all_within(bound: u32, a: &[u32]) -> bool
    ensures { result ≡ within bound a.now }
{
    every_word(a, |x| x <= bound)
}

#[tactic(auto, unfolding(crate::specs::Lists::zeros))]
pub fn all_zero(a: &[u32]) -> bool
    ensures { result ≡ zeros a.now }
{
    every_word(a, |x| x == 0)
}

fn every_pair<F: Fn(u32, u32) -> bool>(a: &[u32], b: &[u32], test: F) -> bool
    requires callable { F.IsAlwaysCallable test }
    requires b_len { length b.now ≡ length a.now }
    ensures { (p : ℕ → ℕ → Bool) → ((x y : ℕ) (r : Bool) → F.post test x y r → r ≡ p x y) → result ≡ every_pair p a.now b.now }
{
    a.iter().zip(b).fold(true, |ok, (x, y)| ok & test(*x, *y))
}

pub fn all_covered(a: &[u32], b: &[u32]) -> bool
    requires { length b.now ≡ length a.now }
    ensures { result ≡ covered a.now b.now }
{
    every_pair(a, b, |x, y| x <= y)
}

pub fn all_equal(a: &[u32], b: &[u32]) -> bool
    requires { length b.now ≡ length a.now }
    ensures { result ≡ equal a.now b.now }
{
    every_pair(a, b, |x, y| x == y)
}

pub fn all_roomy(bound: u32, a: &[u32], b: &[u32]) -> bool
    requires { length b.now ≡ length a.now }
    ensures { result ≡ roomy bound a.now b.now }
{
    every_pair(a, b, |x, y| (x <= bound) & (y <= bound.saturating_sub(x)))
}

// The first place where a is short of b, or a's length. In the form of request P4: a `loop` that yields.
pub fn first_short(a: &[u32], b: &[u32]) -> usize
    requires { length b.now ≡ length a.now }
    ensures { result ≡ first_short a.now b.now }
{
    let mut i = 0;
    loop {
        if i == a.len() {
            break i;
        }
        if a[i] < b[i] {
            break i;
        }
        i += 1;
    }
}

// The same writes on two places of one slice, count words each, that do not meet.

#[tactic(auto, using(crate::proofs::Laws::splice_copy))]
pub fn copy_part(l: &mut [u32], to: usize, from: usize, count: usize)
    requires { Apart l.old to from count }
    ensures { l.new ≡ splice l.old to (part l.old from count) }
{
    l.copy_within(from..from + count, to);
}

pub fn add_part(l: &mut [u32], to: usize, from: usize, count: usize)
    requires apart { Apart l.old to from count }
    requires count_value { roomy most_word (part l.old from count) (part l.old to count) ≡ true }
    ensures { l.new ≡ splice l.old to (zip2 ◌+◌ (part l.old to count) (part l.old from count)) }
{
    if to + count <= from {
        let (front, back) = l.split_at_mut(from);
        add(&mut front[to..to + count], &back[..count]);
    } else {
        let (front, back) = l.split_at_mut(to);
        add(&mut back[..count], &front[from..from + count]);
    }
}

pub fn subtract_part(l: &mut [u32], to: usize, from: usize, count: usize)
    requires apart { Apart l.old to from count }
    requires count_value { covered (part l.old from count) (part l.old to count) ≡ true }
    ensures { l.new ≡ splice l.old to (zip2 ◌-◌ (part l.old to count) (part l.old from count)) }
{
    if to + count <= from {
        let (front, back) = l.split_at_mut(from);
        subtract(&mut front[to..to + count], &back[..count]);
    } else {
        let (front, back) = l.split_at_mut(to);
        subtract(&mut back[..count], &front[from..from + count]);
    }
}
