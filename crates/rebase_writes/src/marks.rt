// Marks of places: a bit for each, in words of 64.
ghost use Rattle.std.specs.Prelude.{◌≡◌, ◌≢◌, ℕ, ◌+◌, ◌-◌, ◌*◌, ◌^◌, ◌<◌, ◌≤◌, ◌↔◌, true, false, length, IsTrue};
ghost use Rattle.rebase_writes.specs.Marks.{is_marked};

/// Whether a place is marked.
pub(crate) fn is_marked(marks: &[u64], place: usize) -> bool
    requires { place < 64 * length marks.now }
    ensures { result ≡ is_marked marks.now place }
{
    marks[place / 64] >> (place % 64) & 1 == 1
}

/// Marks a place.
pub(crate) fn mark(marks: &mut [u64], place: usize)
    requires { place < 64 * length marks.old }
    ensures here { is_marked marks.new place ≡ true }
    ensures others { (other : ℕ) → other ≢ place → is_marked marks.new other ≡ is_marked marks.old other }
{
    marks[place / 64] |= 1 << (place % 64);
}

/// Marks the places of a range, which ends before `to`.
pub(crate) fn mark_range(marks: &mut [u64], from: usize, to: usize)
    requires order { from ≤ to }
    requires inside { to ≤ 64 * length marks.old }
    ensures same { length marks.new ≡ length marks.old }
    ensures here { (place : ℕ) → from ≤ place → place < to → is_marked marks.new place ≡ true }
    ensures before { (place : ℕ) → place < from → is_marked marks.new place ≡ is_marked marks.old place }
    ensures behind { (place : ℕ) → to ≤ place → is_marked marks.new place ≡ is_marked marks.old place }
{
    let mut place = from;
    while place < to {
        let first = place % 64;
        let mut end = 64;
        if to - place < 64 - first {
            end = first + (to - place);
        }
        mark_bits(marks, place / 64, first, end);
        place += end - first;
    }
}

// Marks the places of a word from one bit on, up to another.
fn mark_bits(marks: &mut [u64], at: usize, first: usize, end: usize)
    requires inside { at < length marks.old }
    requires some { first < end }
    requires few { end ≤ 64 }
    ensures same { length marks.new ≡ length marks.old }
    ensures here { (place : ℕ) → 64 * at + first ≤ place → place < 64 * at + end → is_marked marks.new place ≡ true }
    ensures before { (place : ℕ) → place < 64 * at + first → is_marked marks.new place ≡ is_marked marks.old place }
    ensures behind { (place : ℕ) → 64 * at + end ≤ place → is_marked marks.new place ≡ is_marked marks.old place }
{
    marks[at] |= bits(first, end);
}

// The bits from one on, up to another.
fn bits(first: usize, end: usize) -> u64
    requires some { first < end }
    requires few { end ≤ 64 }
    ensures { result ≡ 2 ^ end - 2 ^ first }
{
    let last = 1 << (end - 1);
    last - (1 << first) + last
}

/// Whether each place of a range, which ends before `to`, is marked.
pub(crate) fn are_marked(marks: &[u64], from: usize, to: usize) -> bool
    requires { to ≤ 64 * length marks.now }
    ensures { IsTrue result ↔ ((place : ℕ) → from ≤ place → place < to → is_marked marks.now place ≡ true) }
{
    let mut place = from;
    while place < to {
        if is_at_word(place, to) {
            if !is_full(marks, place) {
                return false;
            }
            place += 64;
        } else {
            if !is_marked(marks, place) {
                return false;
            }
            place += 1;
        }
    }
    true
}

/// Whether no place of a range, which ends before `to`, is marked.
pub(crate) fn are_unmarked(marks: &[u64], from: usize, to: usize) -> bool
    requires { to ≤ 64 * length marks.now }
    ensures { IsTrue result ↔ ((place : ℕ) → from ≤ place → place < to → is_marked marks.now place ≡ false) }
{
    let mut place = from;
    while place < to {
        if is_at_word(place, to) {
            if !is_bare(marks, place) {
                return false;
            }
            place += 64;
        } else {
            if is_marked(marks, place) {
                return false;
            }
            place += 1;
        }
    }
    true
}

// Whether a word of marks begins at a place and ends before `to`.
fn is_at_word(place: usize, to: usize) -> bool
    requires { place < to }
    ensures at { IsTrue result → (at : ℕ) × (place ≡ 64 * at) }
    ensures to { IsTrue result → place + 64 ≤ to }
{
    place % 64 == 0 && to - place >= 64
}

// Whether all places of the word that begins at a place are marked.
fn is_full(marks: &[u64], place: usize) -> bool
    requires at { (at : ℕ) × (place ≡ 64 * at) }
    requires inside { place < 64 * length marks.now }
    ensures { IsTrue result ↔ ((k : ℕ) → k < 64 → is_marked marks.now (place + k) ≡ true) }
{
    marks[place / 64] == u64::MAX
}

// Whether no place of the word that begins at a place is marked.
fn is_bare(marks: &[u64], place: usize) -> bool
    requires at { (at : ℕ) × (place ≡ 64 * at) }
    requires inside { place < 64 * length marks.now }
    ensures { IsTrue result ↔ ((k : ℕ) → k < 64 → is_marked marks.now (place + k) ≡ false) }
{
    marks[place / 64] == 0
}

/// How many places from one on are known to be unmarked: those of a whole word that ends before `to`, or none.
pub(crate) fn bare_from(marks: &[u64], place: usize, to: usize) -> usize
    requires place { place < to }
    requires to { to ≤ 64 * length marks.now }
    ensures to { place + result ≤ to }
    ensures bare { (k : ℕ) → k < result → is_marked marks.now (place + k) ≡ false }
{
    if !is_at_word(place, to) {
        return 0;
    }
    if is_bare(marks, place) { 64 } else { 0 }
}

/// How many places from one on are known to be marked: those of a whole word that ends before `to`, or none.
pub(crate) fn full_from(marks: &[u64], place: usize, to: usize) -> usize
    requires place { place < to }
    requires to { to ≤ 64 * length marks.now }
    ensures to { place + result ≤ to }
    ensures full { (k : ℕ) → k < result → is_marked marks.now (place + k) ≡ true }
{
    if !is_at_word(place, to) {
        return 0;
    }
    if is_full(marks, place) { 64 } else { 0 }
}
