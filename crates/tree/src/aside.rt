// Clips set aside in a worklist: each in two words.
ghost use Rattle.std.specs.Prelude.{◌≡◌, ℕ, suc, ◌+◌, ◌*◌, ◌^◌, ◌<◌, ◌≤◌, [], ◌∷◌, ◌++◌, length, slice_index};
ghost use Rattle.tree.specs.Leaving.{letters_of, asides, clip_by, InOrder};
ghost use Rattle.tree.specs.Nodes.{Lettered};

use ranked::sort_words;
use space::StoredClip;

// How many numbers a clip can have: a key is one of them times this, and a place below it.
const NUMBERS: u64 = 0x1_0000_0000;

// Ten letters in one word, six bits each, the first lowest.
pub(crate) fn packed(letters: [u8; 10]) -> u64
    requires { (k : ℕ) → slice_index letters k < 64 }
    ensures { letters_of 10 result ≡ letters }
{
    let mut word = 0;
    for letter in letters.iter().rev() {
        word = word * 64 + u64::from(*letter);
    }
    word
}

// The ten letters of a word.
pub(crate) fn unpacked(word: u64) -> [u8; 10]
    ensures { result ≡ letters_of 10 word }
{
    let mut letters = [0; 10];
    let mut rest = word;
    for letter in letters.iter_mut() {
        // By `as`, here and below: what a remainder or a quotient fits is proved, and a try_from would have a branch that is never taken.
        *letter = (rest % 64) as u8;
        rest /= 64;
    }
    letters
}

// Lays a clip in the worklist, behind n others.
pub(crate) fn lay_aside(words: &mut [u64], n: usize, clip: StoredClip)
    requires letters { Lettered clip }
    requires room { 2 * n + 1 < length words.old }
    ensures aside { asides words.new (suc n) ≡ asides words.old n ++ clip ∷ [] }
    ensures words { length words.new ≡ length words.old }
{
    let half = words.len() / 2;
    words[n] = u64::from(clip.number);
    words[half + n] = packed(clip.letters);
}

// Puts the n clips of a worklist in rising number: each number becomes a key that also says where its letters are, and the keys are sorted.
pub(crate) fn order_asides(words: &mut [u64], n: usize)
    requires few { n < 2 ^ 32 }
    requires room { 2 * n ≤ length words.old }
    ensures { InOrder words.old words.new n }
{
    for (i, word) in words[0..n].iter_mut().enumerate() {
        *word = *word % NUMBERS * NUMBERS + i as u64;
    }
    sort_words(&mut words[0..n]);
}

// The clip of the key at k.
pub(crate) fn keyed_at(words: &[u64], k: usize) -> StoredClip
    requires { 2 * k + 1 < length words.now }
    ensures { result ≡ clip_by words.now (slice_index words.now k) }
{
    let key = words[k];
    let place = words.len() / 2 + (key % NUMBERS) as usize;
    StoredClip {
        number: (key / NUMBERS) as u32,
        letters: unpacked(words.get(place).copied().unwrap_or(0)),
    }
}
