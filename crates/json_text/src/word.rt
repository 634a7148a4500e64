//! The words `null`, `true` and `false`.
ghost use Rattle.std.specs.Prelude.{◌≡◌, length, ◌≤◌, MatchResult};
ghost use Rattle.json_text.specs.Scan.{scan_word};

/// `Ok` if the text begins with the word; else the number of its bytes with which the text begins.
#[tactic(auto, unfolding(crate::specs::Scan::scan_word))]
pub(crate) fn word_len(bytes: &[u8], word: &[u8]) -> Result<usize, usize>
    ensures scanned { result ≡ scan_word word.now 0 bytes.now }
    ensures within { MatchResult result (λ n. n ≤ length bytes.now) (λ n. n ≤ length bytes.now) }
{
    for (n, byte) in word.iter().enumerate() {
        if bytes.get(n) != Some(byte) {
            return Err(n);
        }
    }
    Ok(word.len())
}
