//! Parses numbers in their shortest decimal form.
ghost use Rattle.std.specs.Prelude.{◌≡◌, ◌∷◌, ◌++◌, decimal, slice_index_or, IfSome, IsNone};

/// Parses the number at the start of a line that does not begin with a zero.
fn split_digits<'l>(line: &'l [u8]) -> Option<(u32, &'l [u8])>
    requires { slice_index_or line.now 0 0 ≡ 48 → ⊥ }
    ensures { IfSome result (λ found. line.now ≡ decimal found.0 ++ found.1.now) }
{
    let mut number = 0u32;
    for index in 0..line.len() {
        let byte = line[index];
        if !byte.is_ascii_digit() {
            let (_, rest) = line.split_at(index);
            return if index > 0 {
                Some((number, rest))
            } else {
                None
            };
        }
        let tens = number.checked_mul(10)?;
        number = tens.checked_add(u32::from(byte - b'0'))?;
    }
    None
}

/// Strips a zero from the start of the line.
fn strip_zero<'l>(line: &'l [u8]) -> Option<&'l [u8]>
    ensures some { IfSome result (λ rest. line.now ≡ 48 ∷ rest.now) }
    ensures none { IsNone result → slice_index_or line.now 0 0 ≡ 48 → ⊥ }
{
    match line {
        [b'0', rest @ ..] => Some(rest),
        _ => None,
    }
}

/// Parses the number of at most 32 bits at the start of the line, in its shortest decimal form.
/// Something follows it.
#[tactic(auto, using(crate::proofs::Decimals::zero_first))]
pub(crate) fn split_number<'l>(line: &'l [u8]) -> Option<(u32, &'l [u8])>
    ensures { IfSome result (λ found. line.now ≡ decimal found.0 ++ found.1.now) }
{
    match strip_zero(line) {
        Some(rest) => Some((0, rest)),
        None => split_digits(line),
    }
}
