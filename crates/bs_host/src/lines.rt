//! The lines of a file, split off one by one.
ghost use Rattle.std.specs.Prelude.{◌≡◌, ◌==◌, ◌+◌, ◌<◌, ◌≤◌, ◌^◌, [], ◌∷◌, ◌++◌, length, take, drop, option_copied, slice_index_or, true, IfSome, IsNone, None};
ghost use Rattle.bs_host.specs.inner.Live.{IsBegun, IsCutLast};
ghost use Rattle.std.specs.List.{position};
ghost use Rattle.bs_host.specs.File.{pieces_of};
ghost use Rattle.bs_host.specs.inner.File.{pieces_after};

use memchr::{memchr, memrchr};

/// The byte between two lines.
const LINE_FEED: u8 = b'\n';

#[tactic(auto, using(crate::proofs::CutPieces::first_byte_is_position))]
pub(crate) fn first_feed(text: &[u8]) -> Option<usize>
    ensures { result ≡ position (λ byte. byte == LINE_FEED) text.now }
{
    memchr(LINE_FEED, text)
}

/// The line before the first line feed, and the text after it, if there is one.
#[tactic(auto, using(crate::proofs::CutPieces::pieces_at_feed, crate::proofs::CutPieces::piece_without_feed))]
pub(crate) fn split_line(text: &[u8]) -> (&[u8], Option<&[u8]>)
    ensures pieces { pieces_of text.now ≡ result.0.now ∷ pieces_after (option_copied result.1) }
    ensures shorter { IfSome result.1 (λ rest. length rest.now < length text.now) }
{
    match first_feed(text) {
        None => (text, None),
        Some(at) => (&text[..at], Some(&text[at + 1..])),
    }
}

/// Splits a text at the first line feed from index `place` on, if there is one.
#[tactic(auto, using(crate::proofs::CutPieces::pieces_around))]
pub(crate) fn split_from(text: &[u8], place: usize) -> Option<(&[u8], &[u8])>
    requires { place ≤ length text.now }
    ensures pieces { IfSome result (λ cut. pieces_of text.now ≡ pieces_of cut.0.now ++ pieces_of cut.1.now) }
    ensures bytes { IfSome result (λ cut. length cut.0.now + 1 + length cut.1.now ≡ length text.now) }
{
    let at = place + first_feed(&text[place..])?;
    Some((&text[..at], &text[at + 1..]))
}

/// The first line of some bytes, and the bytes after it if the line is complete.
#[tactic(auto, using(crate::proofs::LivePieces::first_cut))]
pub(crate) fn split_first(bytes: &[u8]) -> (&[u8], Option<&[u8]>)
    ensures { IsBegun bytes.now result.0.now (option_copied result.1) }
{
    match first_feed(bytes) {
        None => (bytes, None),
        Some(at) => (&bytes[..at], Some(&bytes[at + 1..])),
    }
}

/// The index of the last line feed, if there is one.
#[tactic(auto, using(crate::proofs::LivePieces::last_cut))]
pub(crate) fn last_feed(bytes: &[u8]) -> Option<usize>
    ensures some { IfSome result (λ at. at < length bytes.now) }
    ensures cut { IfSome result (λ at. IsCutLast bytes.now (take at bytes.now) (drop (at + 1) bytes.now)) }
    ensures behind { IfSome result (λ at. position (λ byte. byte == LINE_FEED) (drop (at + 1) bytes.now) ≡ None) }
    ensures none { IsNone result → position (λ byte. byte == LINE_FEED) bytes.now ≡ None }
{
    memrchr(LINE_FEED, bytes)
}
