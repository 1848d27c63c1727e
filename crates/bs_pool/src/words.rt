//! The free numbers of a pool as words: a bit for each number, 64 to a word, set where it is free.
ghost use Rattle.std.specs.Prelude.{◌≡◌, ◌*◌, ◌/◌, ◌<◌, ◌≤◌, ◌^◌, length, None, replicate, not, nat_eq, position, IfOk};
ghost use Rattle.bs_pool.specs.inner.Marks.{FindsMark, SetsMark, MarksFree};

use std::alloc::{AllocError, Global};

/// Makes the words of `n` free numbers.
pub(crate) fn new_words(alloc: Global, n: usize) -> Result<Vec<u64>, AllocError>
    ensures { IfOk result (λ words. MarksFree words.items (replicate n None)) }
{
    let mut words = vec![in alloc; 0; n.div_ceil(64)]?;
    for number in 0..n {
        mark(&mut words, number);
    }
    Ok(words)
}

/// The index of the first word that is not 0.
fn first_word(words: &[u64]) -> Option<usize>
    ensures { result ≡ position (λ word. not (nat_eq word 0)) words.now }
{
    words.iter().position(|word| *word != 0)
}

/// The least number whose bit is set.
pub(crate) fn first_marked(words: &[u64]) -> Option<usize>
    requires { 64 * length words.now ≤ 2 ^ 64 }
    ensures { FindsMark words.now result }
{
    let at = first_word(words)?;
    Some(64 * at + words[at].trailing_zeros() as usize)
}

/// Sets the bit of the number.
pub(crate) fn mark(words: &mut [u64], number: usize)
    requires { number / 64 < length words.old }
    ensures { SetsMark words.old number 1 words.new }
{
    words[number / 64] |= 1 << (number % 64);
}

/// Clears the bit of the number.
pub(crate) fn unmark(words: &mut [u64], number: usize)
    requires { number / 64 < length words.old }
    ensures { SetsMark words.old number 0 words.new }
{
    words[number / 64] &= !(1 << (number % 64));
}
