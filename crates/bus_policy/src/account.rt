//! Words for accounts.
ghost use Rattle.std.specs.Prelude.{◌≡◌, ◌++◌, ℕ, List, MatchOption, codes};
ghost use Rattle.bus_policy.specs.Grammar as spec;
ghost use Rattle.bus_policy.specs.Parts.{root_arn};

use event_shape::is_account;

/// The word that names everyone.
pub(crate) const EVERYONE: &str = "*";

const ROOT_FRONT: &str = "arn:aws:iam::";

const ROOT_END: &str = ":root";

pub(crate) fn is_principal_word(word: &str) -> bool
    ensures { result ≡ spec.is_principal_word word.now }
{
    word == EVERYONE || is_account(word) || is_root(word)
}

fn is_root(word: &str) -> bool
    ensures { result ≡ spec.is_root word.now }
{
    match account_of_root(word) {
        Some(account) => is_account(account),
        None => false,
    }
}

/// The account of a root's ARN: the text between the ARN's fixed front and end.
pub(crate) fn account_of_root(word: &str) -> Option<&str>
    ensures { MatchOption result
        ((account : List ℕ) → ¬ (word.now ≡ root_arn account))
        (λ account. word.now ≡ root_arn account.now) }
{
    match after(word, ROOT_FRONT) {
        Some(rest) => before(rest, ROOT_END),
        None => None,
    }
}

fn after<'a>(text: &'a str, front: &str) -> Option<&'a str>
    ensures { MatchOption result
        ((rest : List ℕ) → ¬ (text.now ≡ front.now ++ rest))
        (λ rest. text.now ≡ front.now ++ rest.now) }
{
    text.strip_prefix(front)
}

fn before<'a>(text: &'a str, end: &str) -> Option<&'a str>
    ensures { MatchOption result
        ((rest : List ℕ) → ¬ (text.now ≡ rest ++ end.now))
        (λ rest. text.now ≡ rest.now ++ end.now) }
{
    text.strip_suffix(end)
}
